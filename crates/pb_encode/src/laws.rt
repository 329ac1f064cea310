ghost use Rattle.std.specs.Prelude.{◌≡◌, ◌≢◌, Bool, true, false, List, Ok, Err, [], ◌∷◌, ◌++◌, codes, length, All};
ghost use Rattle.std.specs.List.{flat_map};
ghost use Rattle.pb_words.specs.declared.Refusal.TheVariants as refusals;
ghost use Rattle.pb_buses.specs.declared.Condition.TheVariants as conditions;
ghost use Rattle.pb_buses.specs.declared.Record.{Record};
ghost use Rattle.pb_pcap.specs.declared.fields.Field.{Field};
ghost use Rattle.pb_pcap.specs.Fields.{IsLayout};
ghost use Rattle.pb_pcap.specs.Records.{record_bytes, records_bytes};
ghost use Rattle.pb_encode.specs.declared.options.Form.TheVariants as forms;
ghost use Rattle.pb_encode.specs.Choosing.{options_of};
ghost use Rattle.pb_encode.specs.Encoding.{header, piece, record_line, ascii, encoded};
ghost use Rattle.pb_encode.specs.Showing.{IsInRange, shown_record};
ghost use Rattle.pb_encode.specs.Examples.{counter, encoder, shifted, samples, options, three, last, long};

/// What a few lines choose: nothing, forms and processes in either order, what undoes what stands before it, and
/// what is refused.
pub fn options_by_example()
    ensures nothing { options_of [] ≡ Ok (options forms.Ascii true) }
    ensures unscaled { options_of (codes " ASCII  UNSCALED ") ≡ Ok (options forms.Ascii false) }
    ensures other_form { options_of (codes "BASE64") ≡ Ok (options forms.Base64 false) }
    ensures undone { options_of (codes "BARE DEFAULT") ≡ Ok (options forms.Ascii true) }
    ensures ascii_last { options_of (codes "SCALED FRAMED ASCII") ≡ Ok (options forms.Ascii true) }
    ensures scaled_frames { options_of (codes "FRAMED SCALED") ≡ Err refusals.ScaledNeedsAscii }
    ensures unknown { options_of (codes "FRAMED SCALED XML") ≡ Err refusals.UnknownOption }
    ensures lower_case { options_of (codes "ascii") ≡ Err refusals.UnknownOption }
    ensures tab { options_of (9 ∷ []) ≡ Err refusals.NotPrintable }
{}

/// The headers of a counter as it is, and of a scan in millimetres.
pub fn headers_by_example()
    ensures plain { header (options forms.Ascii false) (counter ∷ []) ≡
        codes "missed: 0\nprocess: Unscaled\nformat: ASCII\nfields:\n COUNTER1.OUT int32 Value\n\n" }
    ensures in_units { header (options forms.Ascii true) (shifted ∷ samples ∷ []) ≡
        codes "missed: 0\nprocess: Scaled\nformat: ASCII\nfields:\n INENC1.VAL int32 Min Scale: 0.001 Offset: 0.5 Units: mm\n"
        ++ codes " INENC1.VAL int32 Max Scale: 0.001 Offset: 0.5 Units: mm\n INENC1.VAL int64 Sum Scale: 0.001 Offset: 0 Units: mm\n"
        ++ codes " PCAP.GATE_DURATION uint64 Value\n\n" }
    ensures size { length (header (options forms.Ascii true) (encoder ∷ counter ∷ [])) ≡ 267 }
{}

/// Pieces in the four forms, and scaled: the offset is added to the least and the greatest value and not to the sum.
pub fn pieces_by_example()
    ensures unframed { piece (options forms.Unframed false) (counter ∷ []) three ≡ three }
    ensures framed { piece (options forms.Framed false) (counter ∷ []) three ≡ codes "BIN " ++ 20 ∷ 0 ∷ 0 ∷ 0 ∷ three }
    ensures base64 { piece (options forms.Base64 false) (counter ∷ []) three ≡ codes " AAAAAAEAAAACAAAA\n" }
    ensures ascii { piece (options forms.Ascii false) (counter ∷ []) three ≡ codes " 0\n 1\n 2\n" }
    ensures in_units { piece (options forms.Ascii true) (encoder ∷ counter ∷ []) last ≡ codes " 6.99 7 6994.52 699\n" }
    ensures with_offset { piece (options forms.Ascii true) (shifted ∷ counter ∷ []) last ≡ codes " 7.49 7.5 6994.52 699\n" }
    ensures long { piece (options forms.Ascii false) (encoder ∷ samples ∷ []) long ≡ codes " -2147483648 -2147483648 0 1099511627776\n" }
{}

/// The lines of the bytes of records show the numbers of the records, in the order of the layout.
#[tactic(auto, using(crate::proofs::ShowingLemmas::record_shown, crate::proofs::ShowingLemmas::records_shown))]
pub fn pieces_show_the_numbers_of_records()
    ensures line { (is_scaled : Bool) (fields : List Field) (row : Record) → IsLayout fields → IsInRange row
        → record_line is_scaled fields (record_bytes fields row) ≡ shown_record is_scaled fields row }
    ensures lines { (is_scaled : Bool) (fields : List Field) (rows : List Record) → IsLayout fields → fields ≢ [] → All IsInRange rows
        → ascii is_scaled fields (records_bytes fields rows) ≡ flat_map (shown_record is_scaled fields) rows }
{}

/// A whole acquisition, in one piece and in two.
pub fn acquisitions_by_example()
    ensures { encoded (options forms.Ascii false) (counter ∷ []) (three ∷ []) 3 conditions.Ok ≡
        codes "missed: 0\nprocess: Unscaled\nformat: ASCII\nfields:\n COUNTER1.OUT int32 Value\n\n 0\n 1\n 2\nEND 3 Ok\n" }
{}
