//! Worked scripts, by the definition of their output alone.
ghost use Rattle.std.specs.Prelude.{◌≡◌, pos, [], ◌∷◌, codes};
ghost use Rattle.pb_replay.specs.Script.{Timed, Skipped, Level, Command, CloseControl, OpenData, Take, CloseData, End};
ghost use Rattle.pb_replay.specs.Output.{output};

/// The end alone writes nothing. A LUT shows its input one tick later, and a row of the stimulus stands
/// at its tick before every command of that tick. A LUT that feeds itself toggles at every tick.
pub fn worked_scripts()
    ensures empty { output (Timed 0 End ∷ []) ≡ [] }
    ensures latency { output (
        Timed 0 (Command 1 (codes "LUT1.INPA=TTLIN1.VAL"))
        ∷ Timed 0 (Command 1 (codes "LUT1.FUNC=~A"))
        ∷ Timed 2 (Command 1 (codes "TTLIN1.VAL?"))
        ∷ Timed 2 (Level (codes "TTLIN1") (pos 1))
        ∷ Timed 2 (Command 1 (codes "LUT1.OUT?"))
        ∷ Timed 3 (Command 1 (codes "LUT1.OUT?"))
        ∷ Timed 3 End
        ∷ [])
        ≡ codes "0 C 1 3\nOK\n0 C 1 3\nOK\n2 C 1 6\nOK =1\n2 C 1 6\nOK =1\n3 C 1 6\nOK =0\n" }
    ensures toggling { output (
        Timed 0 (Command 1 (codes "LUT1.INPA=LUT1.OUT"))
        ∷ Timed 0 (Command 1 (codes "LUT1.FUNC=~A"))
        ∷ Timed 1 (Command 1 (codes "LUT1.OUT?"))
        ∷ Timed 2 (Command 1 (codes "LUT1.OUT?"))
        ∷ Timed 2 End
        ∷ [])
        ≡ codes "0 C 1 3\nOK\n0 C 1 3\nOK\n1 C 1 6\nOK =1\n2 C 1 6\nOK =0\n" }
    ensures refused { output (
        Skipped
        ∷ Timed 0 (Command 1 [])
        ∷ Timed 0 (Command 1 (codes "LUT1.INPA=TTLIN7.VAL"))
        ∷ Timed 0 (Command 1 (codes "LUT1.FUNC=0X1"))
        ∷ Timed 0 End
        ∷ [])
        ≡ codes "0 C 1 22\nERR Malformed command\n0 C 1 18\nERR Unknown label\n0 C 1 20\nERR Malformed value\n" }
{}

/// A table write goes over several lines: it is answered at the tick of its empty line, and what is unfinished at the
/// end not at all. A line of a body sends nothing by itself.
pub fn commands_over_several_lines()
    ensures table { output (
        Timed 0 (Command 1 (codes "FOO.X<"))
        ∷ Skipped
        ∷ Timed 0 (Command 1 (codes "1 2 x"))
        ∷ Timed 1 (Command 1 (codes "LUT1.OUT?"))
        ∷ Timed 2 (Command 1 [])
        ∷ Timed 2 End
        ∷ [])
        ≡ codes "2 C 1 18\nERR No such block\n" }
    ensures malformed { output (
        Timed 0 (Command 1 (codes "*ECHO a<"))
        ∷ Timed 0 (Command 1 [])
        ∷ Timed 0 (Command 1 (codes "*ECHO a?"))
        ∷ Timed 0 End
        ∷ [])
        ≡ codes "0 C 1 22\nERR Malformed command\n0 C 1 6\nOK =a\n" }
    ensures unfinished { output (
        Timed 0 (Command 1 (codes "*ECHO a?"))
        ∷ Timed 0 (Command 1 (codes "FOO.X<"))
        ∷ Timed 0 (Command 1 (codes "*ECHO b?"))
        ∷ Timed 0 End
        ∷ [])
        ≡ codes "0 C 1 6\nOK =a\n" }
{}

/// Sessions of a port have bytes, and an end, of their own. A session that closes forgets what it has sent of a command, and opens with
/// its next line. What happens to a session that isn't open is told to nobody.
pub fn sessions_of_their_own()
    ensures two { output (
        Timed 0 (Command 2 (codes "FOO.X<"))
        ∷ Timed 0 (Command 1 (codes "*WHO?"))
        ∷ Timed 1 (Command 2 [])
        ∷ Timed 1 (CloseControl 2)
        ∷ Timed 1 (Command 1 (codes "*WHO?"))
        ∷ Timed 1 End
        ∷ [])
        ≡ codes "0 C 1 12\n!C 1\n!C 2\n.\n1 C 2 18\nERR No such block\n1 C 1 7\n!C 1\n.\n" }
    ensures forgotten { output (
        Timed 0 (Command 1 (codes "FOO.X<"))
        ∷ Timed 0 (CloseControl 1)
        ∷ Timed 0 (Command 1 (codes "*ECHO b?"))
        ∷ Timed 0 End
        ∷ [])
        ≡ codes "0 C 1 6\nOK =b\n" }
    ensures closed { output (
        Timed 0 (CloseControl 1)
        ∷ Timed 0 (Take 1)
        ∷ Timed 0 (CloseData 1)
        ∷ Timed 0 End
        ∷ [])
        ≡ [] }
{}

/// A data session is told that it is open, if it wants to be, and takes nothing while nothing is armed. One that opens again is closed
/// before, so that refused options leave none.
pub fn data_sessions_open_and_close()
    ensures opened { output (
        Timed 0 (OpenData 1 (codes "ASCII"))
        ∷ Timed 2 (OpenData 8 (codes "BARE"))
        ∷ Timed 2 (Take 1)
        ∷ Timed 2 (Command 1 (codes "*WHO?"))
        ∷ Timed 2 (CloseData 1)
        ∷ Timed 2 (CloseData 8)
        ∷ Timed 2 End
        ∷ [])
        ≡ codes "0 D 1 3\nOK\n2 C 1 17\n!C 1\n!D 1\n!D 8\n.\n" }
    ensures again { output (
        Timed 0 (OpenData 1 [])
        ∷ Timed 0 (OpenData 1 (codes "XML"))
        ∷ Timed 0 (Command 1 (codes "*WHO?"))
        ∷ Timed 0 End
        ∷ [])
        ≡ codes "0 D 1 3\nOK\n0 D 1 19\nERR Unknown option\n0 C 1 7\n!C 1\n.\n" }
{}
