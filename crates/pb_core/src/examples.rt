ghost use Rattle.std.specs.Prelude.{◌≡◌, true, false, codes};
ghost use Rattle.pb_words.specs.declared.Refusal.TheVariants as refusals;
ghost use Rattle.pb_core.specs.declared.events.Answer.TheVariants as answers;
ghost use Rattle.pb_core.specs.Answer.{answer, after};
ghost use Rattle.pb_core.specs.declared.events.Event.TheVariants as events;
ghost use Rattle.pb_core.specs.Examples.{line, told, inverter, toggle, three_open, sends, took_all};

/// A LUT that inverts an input sees its edge one tick later.
pub fn input_is_seen_one_tick_later()
    ensures output_at_0 { told inverter 0 (codes "LUT1.OUT?\n") ≡ answers.Reply (codes "OK =0\n") }
    ensures output_at_1 { told inverter 1 (codes "LUT1.OUT?\n") ≡ answers.Reply (codes "OK =1\n") }
    ensures input_at_2 { told inverter 2 (codes "TTLIN1.VAL?\n") ≡ answers.Reply (codes "OK =1\n") }
    ensures output_at_2 { told inverter 2 (codes "LUT1.OUT?\n") ≡ answers.Reply (codes "OK =1\n") }
    ensures output_at_3 { told inverter 3 (codes "LUT1.OUT?\n") ≡ answers.Reply (codes "OK =0\n") }
{}

/// A LUT that inverts its own output changes with each tick.
pub fn lut_of_itself_toggles()
    ensures at_1 { told toggle 1 (codes "LUT1.OUT?\n") ≡ answers.Reply (codes "OK =1\n") }
    ensures at_2 { told toggle 2 (codes "LUT1.OUT?\n") ≡ answers.Reply (codes "OK =0\n") }
{}

/// A refused line leaves the core as it was.
pub fn refused_lines_change_nothing()
    ensures label { answer inverter (line (codes "LUT1.INPA=TTLIN7.VAL\n")) ≡ answers.Error refusals.UnknownLabel }
    ensures label_kept { after inverter (line (codes "LUT1.INPA=TTLIN7.VAL\n")) ≡ inverter }
    ensures value { answer inverter (line (codes "LUT1.FUNC=0X1\n")) ≡ answers.Error refusals.MalformedValue }
    ensures value_kept { after inverter (line (codes "LUT1.FUNC=0X1\n")) ≡ inverter }
    ensures number { answer inverter (line (codes "LUT9.OUT?\n")) ≡ answers.Error refusals.BlockNumberOutOfRange }
    ensures number_kept { after inverter (line (codes "LUT9.OUT?\n")) ≡ inverter }
    ensures field { answer inverter (line (codes "LUT1.NOPE=1\n")) ≡ answers.Error refusals.NoSuchField }
    ensures field_kept { after inverter (line (codes "LUT1.NOPE=1\n")) ≡ inverter }
    ensures output { answer inverter (line (codes "LUT1.OUT=1\n")) ≡ answers.Error refusals.NotWriteable }
    ensures output_kept { after inverter (line (codes "LUT1.OUT=1\n")) ≡ inverter }
{}

/// Sessions are listed while they are open. A session that isn't open is told so, and changes nothing.
pub fn sessions_by_example()
    ensures listed { answer three_open (sends (codes "*WHO?")) ≡ answers.Reply (codes "!C 1\n!C 2\n!D 3\n.\n") }
    ensures closed { answer (after three_open (events.CloseControl 2)) (sends (codes "*WHO?")) ≡ answers.Reply (codes "!C 1\n!D 3\n.\n") }
    ensures gone { answer (after three_open (events.CloseData 3)) (sends (codes "*WHO?")) ≡ answers.Reply (codes "!C 1\n!C 2\n.\n") }
    ensures not_open { answer three_open (events.Line 3 (codes "*IDN?\n")) ≡ answers.Closed }
    ensures not_refused { answer three_open (events.Bad 3 refusals.LineTooLong) ≡ answers.Closed }
    ensures not_reading { (answer three_open (events.Take 1) ≡ answers.Closed) × (after three_open (events.Take 1) ≡ three_open) }
{}

/// Data sessions are opened by their options, and take what is captured.
pub fn readers_by_example()
    ensures opened { answer three_open (events.OpenData 1 (codes "SCALED FRAMED ASCII")) ≡ answers.Opened true }
    ensures unsaid { answer three_open (events.OpenData 1 (codes "BARE")) ≡ answers.Opened false }
    ensures unknown { answer three_open (events.OpenData 3 (codes "XML")) ≡ answers.Error refusals.UnknownOption }
    ensures scaled { answer three_open (events.OpenData 3 (codes "FRAMED SCALED")) ≡ answers.Error refusals.ScaledNeedsAscii }
    ensures kept { after three_open (events.OpenData 3 (codes "XML")) ≡ three_open }
    ensures not_yet { answer three_open (events.Take 3) ≡ answers.NotYet }
    ensures finished { answer took_all (events.Take 4) ≡ answers.Finished }
    ensures waits { answer three_open (sends (codes "*PCAP.STATUS?")) ≡ answers.Reply (codes "OK =Idle 1 0\n") }
    ensures reads { answer took_all (sends (codes "*PCAP.STATUS?")) ≡ answers.Reply (codes "OK =Idle 2 1\n") }
{}
