ghost use Rattle.std.specs.Prelude.{◌≡◌, Some, None, [], codes, pos, neg_ℤ};
ghost use Rattle.pb_replay.specs.Script.{Skipped, Timed, Level, Command, CloseControl, OpenData, Take, CloseData, End};
ghost use Rattle.pb_replay.specs.Reading.{line_in};
ghost use Rattle.pb_replay.specs.Faults.{first_fault};

use pb_stim::Cause;

/// A line of each form, and texts that are none.
pub fn lines_by_example()
    ensures skipped { line_in (codes "# rows") ≡ Some Skipped }
    ensures level { line_in (codes "007 S INENC2 -5") ≡ Some (Timed 7 (Level (codes "INENC2") (neg_ℤ (pos 5)))) }
    ensures command { line_in (codes "7 C 1 LUT1.OUT?") ≡ Some (Timed 7 (Command 1 (codes "LUT1.OUT?"))) }
    ensures no_text { line_in (codes "7 C 1") ≡ Some (Timed 7 (Command 1 [])) }
    ensures empty_text { line_in (codes "7 C 1 ") ≡ Some (Timed 7 (Command 1 [])) }
    ensures close_control { line_in (codes "7 X 1") ≡ Some (Timed 7 (CloseControl 1)) }
    ensures open_data { line_in (codes "7 D 2 ASCII UNSCALED") ≡ Some (Timed 7 (OpenData 2 (codes "ASCII UNSCALED"))) }
    ensures take { line_in (codes "7 R 2") ≡ Some (Timed 7 (Take 2)) }
    ensures close_data { line_in (codes "7 Y 2") ≡ Some (Timed 7 (CloseData 2)) }
    ensures end { line_in (codes "7 E") ≡ Some (Timed 7 End) }
    ensures two_spaces { line_in (codes "7  E") ≡ None }
    ensures third_part { line_in (codes "7 E 1") ≡ None }
    ensures no_session { line_in (codes "7 R") ≡ None }
    ensures plus { line_in (codes "7 S INENC1 +1") ≡ None }
    ensures lower_case { line_in (codes "7 e") ≡ None }
{}

/// The first fault of a few bytes. Where a line breaks two rules, the first of them is told; where two lines do, the
/// first line.
pub fn faults_by_example()
    ensures script { first_fault (codes "0 S TTLIN1 1\n0 D 1\n\n10 C 8 *IDN?\n10 E\n# last\n") ≡ None }
    ensures no_newline { first_fault (codes "0 E\nx") ≡ Some (2, Cause.NoNewline) }
    ensures after_the_end { first_fault (codes "0 E\n\n# c\nnonsense\n") ≡ Some (4, Cause.AfterTheEnd) }
    ensures malformed { first_fault (codes "0 C 1 *IDN?\n0 Q\n4611686018427387904 Q\n") ≡ Some (2, Cause.Malformed) }
    ensures tick_out_of_range { first_fault (codes "4611686018427387904 S FOO 7\n") ≡ Some (1, Cause.TickOutOfRange) }
    ensures tick_falls { first_fault (codes "5 C 1 *IDN?\n4 S FOO 7\n") ≡ Some (2, Cause.TickFalls) }
    ensures unknown_target { first_fault (codes "0 S INENC5 99999999999\n") ≡ Some (1, Cause.UnknownTarget) }
    ensures session_out_of_range { first_fault (codes "0 X 0\n") ≡ Some (1, Cause.SessionOutOfRange) }
    ensures value_out_of_range { first_fault (codes "0 S INENC1 -2147483648\n0 S INENC1 2147483648\n") ≡ Some (2, Cause.ValueOutOfRange) }
    ensures no_end_line { first_fault (codes "0 C 1 *IDN?\n# last\n") ≡ Some (3, Cause.NoEndLine) }
{}
