ghost use Rattle.std.specs.Prelude.{◌≡◌, ℕ, ◌+◌, ◌*◌, List, [], ◌∷◌, Some, codes, length, map, slice_get};
ghost use Rattle.std.specs.List.{range_with_len};
ghost use Rattle.pb_names.specs.declared.TheConstants.{BLOCKS};
ghost use Rattle.pb_names.specs.declared.ttlin.TheConstants as ttlin;
ghost use Rattle.pb_names.specs.declared.inenc.TheConstants as inenc;
ghost use Rattle.pb_names.specs.declared.bits.TheConstants as bits;
ghost use Rattle.pb_names.specs.declared.lut.TheConstants as lut;
ghost use Rattle.pb_names.specs.declared.srgate.TheConstants as srgate;
ghost use Rattle.pb_names.specs.declared.div.TheConstants as div;
ghost use Rattle.pb_names.specs.declared.pulse.TheConstants as pulse;
ghost use Rattle.pb_names.specs.declared.counter.TheConstants as counter;
ghost use Rattle.pb_names.specs.declared.clock.TheConstants as clock;
ghost use Rattle.pb_names.specs.declared.seq.TheConstants as seq;
ghost use Rattle.pb_names.specs.declared.pcomp.TheConstants as pcomp;
ghost use Rattle.pb_names.specs.declared.pcap.TheConstants as pcap;
ghost use Rattle.pb_names.specs.declared.bit_bus.TheConstants as bit_bus;
ghost use Rattle.pb_names.specs.declared.bit_mux.TheConstants as bit_mux;
ghost use Rattle.pb_names.specs.declared.bit_out.TheConstants as bit_out;
ghost use Rattle.pb_names.specs.declared.bit_word.TheConstants as bit_word;
ghost use Rattle.pb_names.specs.declared.capture.TheConstants as capture;
ghost use Rattle.pb_names.specs.declared.direction.TheConstants as direction;
ghost use Rattle.pb_names.specs.declared.edge.TheConstants as edge;
ghost use Rattle.pb_names.specs.declared.ext_out.TheConstants as ext_out;
ghost use Rattle.pb_names.specs.declared.first_pulse.TheConstants as first_pulse;
ghost use Rattle.pb_names.specs.declared.label_lists.TheConstants as label_lists;
ghost use Rattle.pb_names.specs.declared.param_enum.TheConstants as param_enum;
ghost use Rattle.pb_names.specs.declared.param_lut.TheConstants as param_lut;
ghost use Rattle.pb_names.specs.declared.param_uint.TheConstants as param_uint;
ghost use Rattle.pb_names.specs.declared.pcomp_state.TheConstants as pcomp_state;
ghost use Rattle.pb_names.specs.declared.pos_out.TheConstants as pos_out;
ghost use Rattle.pb_names.specs.declared.position_bus.TheConstants as position_bus;
ghost use Rattle.pb_names.specs.declared.read_enum.TheConstants as read_enum;
ghost use Rattle.pb_names.specs.declared.relative.TheConstants as relative;
ghost use Rattle.pb_names.specs.declared.seq_state.TheConstants as seq_state;
ghost use Rattle.pb_names.specs.declared.table.TheConstants as table;
ghost use Rattle.pb_names.specs.declared.time.TheConstants as time;
ghost use Rattle.pb_names.specs.declared.time_units.TheConstants as time_units;
ghost use Rattle.pb_names.specs.declared.when_disabled.TheConstants as when_disabled;
ghost use Rattle.pb_fields.specs.Types.{attribute_kind};
ghost use Rattle.pb_fields.specs.Catalogue.{catalogue};
ghost use Rattle.pb_fields.specs.Places.{count_of};
ghost use Rattle.pb_fields.specs.Numbered.{blocks_named, fields_named, attributes_named, labels_named};
ghost use Rattle.pb_fields.specs.Labels.{bit_names, position_names, bit_mux_label, position_mux_label};
ghost use Rattle.pb_fields.specs.Entries.{bit_entries, pos_entries, at_entry_of};

use crate::kinds::FieldKind;
use crate::types::{Attribute, FieldType};

/// Each name of a block is its place among the blocks, and with it stands how many there are.
pub fn blocks_have_their_places()
    ensures blocks { length catalogue ≡ BLOCKS }
    ensures places { blocks_named ≡
        (ttlin.BLOCK, codes "TTLIN") ∷ (inenc.BLOCK, codes "INENC") ∷ (bits.BLOCK, codes "BITS") ∷
        (lut.BLOCK, codes "LUT") ∷ (srgate.BLOCK, codes "SRGATE") ∷ (div.BLOCK, codes "DIV") ∷
        (pulse.BLOCK, codes "PULSE") ∷ (counter.BLOCK, codes "COUNTER") ∷ (clock.BLOCK, codes "CLOCK") ∷
        (seq.BLOCK, codes "SEQ") ∷ (pcomp.BLOCK, codes "PCOMP") ∷ (pcap.BLOCK, codes "PCAP") ∷ [] }
    ensures ttlin_count { count_of ttlin.BLOCK ≡ ttlin.INSTANCES }
    ensures inenc_count { count_of inenc.BLOCK ≡ inenc.INSTANCES }
    ensures bits_count { count_of bits.BLOCK ≡ bits.INSTANCES }
    ensures lut_count { count_of lut.BLOCK ≡ lut.INSTANCES }
    ensures srgate_count { count_of srgate.BLOCK ≡ srgate.INSTANCES }
    ensures div_count { count_of div.BLOCK ≡ div.INSTANCES }
    ensures pulse_count { count_of pulse.BLOCK ≡ pulse.INSTANCES }
    ensures counter_count { count_of counter.BLOCK ≡ counter.INSTANCES }
    ensures clock_count { count_of clock.BLOCK ≡ clock.INSTANCES }
    ensures seq_count { count_of seq.BLOCK ≡ seq.INSTANCES }
    ensures pcomp_count { count_of pcomp.BLOCK ≡ pcomp.INSTANCES }
    ensures pcap_count { count_of pcap.BLOCK ≡ pcap.INSTANCES }
{}

/// Each name of a field is its place in its block.
pub fn fields_have_their_places()
    ensures ttlin { fields_named ttlin.BLOCK ≡
        (ttlin.VAL, codes "VAL") ∷ [] }
    ensures inenc { fields_named inenc.BLOCK ≡
        (inenc.VAL, codes "VAL") ∷ [] }
    ensures bits { fields_named bits.BLOCK ≡
        (bits.A, codes "A") ∷ (bits.B, codes "B") ∷ (bits.C, codes "C") ∷ (bits.D, codes "D") ∷
        (bits.OUTA, codes "OUTA") ∷ (bits.OUTB, codes "OUTB") ∷ (bits.OUTC, codes "OUTC") ∷
        (bits.OUTD, codes "OUTD") ∷ [] }
    ensures lut { fields_named lut.BLOCK ≡
        (lut.INPA, codes "INPA") ∷ (lut.INPB, codes "INPB") ∷ (lut.INPC, codes "INPC") ∷
        (lut.INPD, codes "INPD") ∷ (lut.INPE, codes "INPE") ∷ (lut.FUNC, codes "FUNC") ∷
        (lut.OUT, codes "OUT") ∷ [] }
    ensures srgate { fields_named srgate.BLOCK ≡
        (srgate.ENABLE, codes "ENABLE") ∷ (srgate.SET, codes "SET") ∷ (srgate.RST, codes "RST") ∷
        (srgate.WHEN_DISABLED, codes "WHEN_DISABLED") ∷ (srgate.SET_EDGE, codes "SET_EDGE") ∷
        (srgate.RST_EDGE, codes "RST_EDGE") ∷ (srgate.FORCE_SET, codes "FORCE_SET") ∷
        (srgate.FORCE_RST, codes "FORCE_RST") ∷ (srgate.OUT, codes "OUT") ∷ [] }
    ensures div { fields_named div.BLOCK ≡
        (div.ENABLE, codes "ENABLE") ∷ (div.INP, codes "INP") ∷ (div.DIVISOR, codes "DIVISOR") ∷
        (div.FIRST_PULSE, codes "FIRST_PULSE") ∷ (div.COUNT, codes "COUNT") ∷ (div.OUTD, codes "OUTD") ∷
        (div.OUTN, codes "OUTN") ∷ [] }
    ensures pulse { fields_named pulse.BLOCK ≡
        (pulse.ENABLE, codes "ENABLE") ∷ (pulse.TRIG, codes "TRIG") ∷ (pulse.DELAY, codes "DELAY") ∷
        (pulse.WIDTH, codes "WIDTH") ∷ (pulse.PULSES, codes "PULSES") ∷ (pulse.STEP, codes "STEP") ∷
        (pulse.TRIG_EDGE, codes "TRIG_EDGE") ∷ (pulse.QUEUED, codes "QUEUED") ∷
        (pulse.DROPPED, codes "DROPPED") ∷ (pulse.OUT, codes "OUT") ∷ [] }
    ensures counter { fields_named counter.BLOCK ≡
        (counter.ENABLE, codes "ENABLE") ∷ (counter.TRIG, codes "TRIG") ∷ (counter.DIR, codes "DIR") ∷
        (counter.START, codes "START") ∷ (counter.STEP, codes "STEP") ∷ (counter.MIN, codes "MIN") ∷
        (counter.MAX, codes "MAX") ∷ (counter.CARRY, codes "CARRY") ∷ (counter.OUT, codes "OUT") ∷ [] }
    ensures clock { fields_named clock.BLOCK ≡
        (clock.ENABLE, codes "ENABLE") ∷ (clock.PERIOD, codes "PERIOD") ∷ (clock.WIDTH, codes "WIDTH") ∷
        (clock.OUT, codes "OUT") ∷ [] }
    ensures seq { fields_named seq.BLOCK ≡
        (seq.ENABLE, codes "ENABLE") ∷ (seq.BITA, codes "BITA") ∷ (seq.BITB, codes "BITB") ∷
        (seq.BITC, codes "BITC") ∷ (seq.POSA, codes "POSA") ∷ (seq.POSB, codes "POSB") ∷
        (seq.POSC, codes "POSC") ∷ (seq.PRESCALE, codes "PRESCALE") ∷ (seq.REPEATS, codes "REPEATS") ∷
        (seq.TABLE, codes "TABLE") ∷ (seq.STATE, codes "STATE") ∷ (seq.TABLE_LINE, codes "TABLE_LINE") ∷
        (seq.LINE_REPEAT, codes "LINE_REPEAT") ∷ (seq.TABLE_REPEAT, codes "TABLE_REPEAT") ∷
        (seq.OUTA, codes "OUTA") ∷ (seq.OUTB, codes "OUTB") ∷ (seq.OUTC, codes "OUTC") ∷
        (seq.OUTD, codes "OUTD") ∷ (seq.OUTE, codes "OUTE") ∷ (seq.OUTF, codes "OUTF") ∷
        (seq.ACTIVE, codes "ACTIVE") ∷ [] }
    ensures pcomp { fields_named pcomp.BLOCK ≡
        (pcomp.ENABLE, codes "ENABLE") ∷ (pcomp.INP, codes "INP") ∷ (pcomp.PRE_START, codes "PRE_START") ∷
        (pcomp.START, codes "START") ∷ (pcomp.STEP, codes "STEP") ∷ (pcomp.WIDTH, codes "WIDTH") ∷
        (pcomp.PULSES, codes "PULSES") ∷ (pcomp.RELATIVE, codes "RELATIVE") ∷ (pcomp.DIR, codes "DIR") ∷
        (pcomp.STATE, codes "STATE") ∷ (pcomp.PRODUCED, codes "PRODUCED") ∷ (pcomp.OUT, codes "OUT") ∷
        (pcomp.ACTIVE, codes "ACTIVE") ∷ [] }
    ensures pcap { fields_named pcap.BLOCK ≡
        (pcap.ENABLE, codes "ENABLE") ∷ (pcap.GATE, codes "GATE") ∷ (pcap.TRIG, codes "TRIG") ∷
        (pcap.TRIG_EDGE, codes "TRIG_EDGE") ∷ (pcap.TS_START, codes "TS_START") ∷
        (pcap.TS_END, codes "TS_END") ∷ (pcap.TS_TRIG, codes "TS_TRIG") ∷
        (pcap.GATE_DURATION, codes "GATE_DURATION") ∷ (pcap.BITS0, codes "BITS0") ∷
        (pcap.BITS1, codes "BITS1") ∷ (pcap.BITS2, codes "BITS2") ∷ (pcap.BITS3, codes "BITS3") ∷
        (pcap.ACTIVE, codes "ACTIVE") ∷ [] }
{}

/// Each name of an attribute is its place among those of its type of field.
pub fn attributes_have_their_places()
    ensures param_uint { (limit : ℕ) → attributes_named (FieldType.ParamUint limit) ≡
        (param_uint.INFO, codes "INFO") ∷ (param_uint.MAX, codes "MAX") ∷ [] }
    ensures param_enum { (labels : ℕ) → attributes_named (FieldType.ParamEnum labels) ≡
        (param_enum.INFO, codes "INFO") ∷ (param_enum.LABELS, codes "LABELS") ∷ [] }
    ensures param_lut { attributes_named FieldType.ParamLut ≡
        (param_lut.INFO, codes "INFO") ∷ (param_lut.RAW, codes "RAW") ∷ [] }
    ensures read_enum { (labels : ℕ) → attributes_named (FieldType.ReadEnum labels) ≡
        (read_enum.INFO, codes "INFO") ∷ (read_enum.LABELS, codes "LABELS") ∷ [] }
    ensures time { (limit : ℕ) → attributes_named (FieldType.Time limit) ≡
        (time.INFO, codes "INFO") ∷ (time.UNITS, codes "UNITS") ∷ (time.RAW, codes "RAW") ∷ [] }
    ensures bit_out { attributes_named FieldType.BitOut ≡
        (bit_out.INFO, codes "INFO") ∷ (bit_out.CAPTURE_WORD, codes "CAPTURE_WORD") ∷
        (bit_out.OFFSET, codes "OFFSET") ∷ [] }
    ensures pos_out { attributes_named FieldType.PosOut ≡
        (pos_out.INFO, codes "INFO") ∷ (pos_out.CAPTURE, codes "CAPTURE") ∷ (pos_out.OFFSET, codes "OFFSET") ∷
        (pos_out.SCALE, codes "SCALE") ∷ (pos_out.UNITS, codes "UNITS") ∷ (pos_out.SCALED, codes "SCALED") ∷ [] }
    ensures ext_out { attributes_named FieldType.ExtOut ≡
        (ext_out.INFO, codes "INFO") ∷ (ext_out.CAPTURE, codes "CAPTURE") ∷ [] }
    ensures bit_word { attributes_named FieldType.BitWord ≡
        (bit_word.INFO, codes "INFO") ∷ (bit_word.CAPTURE, codes "CAPTURE") ∷ (bit_word.BITS, codes "BITS") ∷ [] }
    ensures bit_mux { attributes_named FieldType.BitMux ≡
        (bit_mux.INFO, codes "INFO") ∷ (bit_mux.DELAY, codes "DELAY") ∷
        (bit_mux.MAX_DELAY, codes "MAX_DELAY") ∷ [] }
    ensures table { attributes_named FieldType.Table ≡
        (table.INFO, codes "INFO") ∷ (table.MAX_LENGTH, codes "MAX_LENGTH") ∷ (table.LENGTH, codes "LENGTH") ∷
        (table.ROW_WORDS, codes "ROW_WORDS") ∷ (table.FIELDS, codes "FIELDS") ∷ (table.B, codes "B") ∷ [] }
{}

/// Each name of a label is its number in its list.
pub fn labels_have_their_numbers()
    ensures when_disabled { labels_named label_lists.WHEN_DISABLED ≡
        (when_disabled.LOW, codes "Set output low") ∷ (when_disabled.HIGH, codes "Set output high") ∷
        (when_disabled.KEEP, codes "Keep current output") ∷ [] }
    ensures edge { labels_named label_lists.EDGE ≡
        (edge.RISING, codes "Rising") ∷ (edge.FALLING, codes "Falling") ∷ (edge.EITHER, codes "Either") ∷ [] }
    ensures first_pulse { labels_named label_lists.FIRST_PULSE ≡
        (first_pulse.OUT_N, codes "OutN") ∷ (first_pulse.OUT_D, codes "OutD") ∷ [] }
    ensures seq_state { labels_named label_lists.SEQ_STATE ≡
        (seq_state.UNREADY, codes "UNREADY") ∷ (seq_state.WAIT_ENABLE, codes "WAIT_ENABLE") ∷
        (seq_state.WAIT_TRIGGER, codes "WAIT_TRIGGER") ∷ (seq_state.PHASE1, codes "PHASE1") ∷
        (seq_state.PHASE2, codes "PHASE2") ∷ [] }
    ensures relative { labels_named label_lists.RELATIVE ≡
        (relative.ABSOLUTE, codes "Absolute") ∷ (relative.RELATIVE, codes "Relative") ∷ [] }
    ensures direction { labels_named label_lists.DIRECTION ≡
        (direction.POSITIVE, codes "Positive") ∷ (direction.NEGATIVE, codes "Negative") ∷
        (direction.EITHER, codes "Either") ∷ [] }
    ensures pcomp_state { labels_named label_lists.PCOMP_STATE ≡
        (pcomp_state.WAIT_ENABLE, codes "WAIT_ENABLE") ∷ (pcomp_state.WAIT_DIR, codes "WAIT_DIR") ∷
        (pcomp_state.WAIT_PRE_START, codes "WAIT_PRE_START") ∷ (pcomp_state.WAIT_RISING, codes "WAIT_RISING") ∷
        (pcomp_state.WAIT_FALLING, codes "WAIT_FALLING") ∷ [] }
    ensures position_capture { labels_named label_lists.POSITION_CAPTURE ≡
        (capture.NO, codes "No") ∷ (capture.VALUE, codes "Value") ∷ (capture.MIN, codes "Min") ∷
        (capture.MAX, codes "Max") ∷ (capture.SUM, codes "Sum") ∷ (capture.MIN_MAX, codes "Min Max") ∷
        (capture.MIN_MAX_SUM, codes "Min Max Sum") ∷ [] }
    ensures field_capture { labels_named label_lists.FIELD_CAPTURE ≡
        (capture.NO, codes "No") ∷ (capture.VALUE, codes "Value") ∷ [] }
    ensures time_units { labels_named label_lists.TIME_UNITS ≡
        (time_units.S, codes "s") ∷ (time_units.MS, codes "ms") ∷ (time_units.US, codes "us") ∷ [] }
{}

/// The names that tell of the buses: how many entries there are and how many are used, and what a mux selects beside them.
pub fn buses_have_their_entries()
    ensures used_bits { length bit_entries ≡ bit_bus.USED }
    ensures used_positions { length pos_entries ≡ position_bus.USED }
    ensures bits { map bit_mux_label (range_with_len 0 bit_bus.USED) ≡ map (λ name. Some name) bit_names }
    ensures positions { map position_mux_label (range_with_len 0 position_bus.USED) ≡ map (λ name. Some name) position_names }
    ensures bit_zero { bit_mux_label bit_bus.ZERO ≡ Some (codes "ZERO") }
    ensures bit_one { bit_mux_label bit_bus.ONE ≡ Some (codes "ONE") }
    ensures position_zero { position_mux_label position_bus.ZERO ≡ Some (codes "ZERO") }
    ensures words { bit_bus.WIDTH ≡ 4 * bit_bus.WORD }
    ensures word { bit_bus.WORD ≡ 32 }
    ensures width { position_bus.WIDTH ≡ 32 }
    ensures behind_bits { bit_bus.ZERO ≡ bit_bus.WIDTH }
    ensures behind_zero { bit_bus.ONE ≡ bit_bus.ZERO + 1 }
    ensures behind_positions { position_bus.ZERO ≡ position_bus.WIDTH }
    ensures counted_as_one { position_bus.FIRST ≡ bit_bus.WIDTH }
    ensures first_position { at_entry_of position_bus.FIRST ≡ slice_get pos_entries 0 }
    ensures delay { attribute_kind Attribute.Delay FieldType.BitMux ≡ FieldKind.Uint 31 }
    ensures max_delay { bit_bus.MAX_DELAY ≡ 31 }
{}
