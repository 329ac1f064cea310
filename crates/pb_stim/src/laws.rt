ghost use Rattle.std.specs.Prelude.{◌≡◌, ℕ, ◌↔◌, ◌⊎◌, Some, None, List, codes};
ghost use Rattle.pb_stim.specs.declared.causes.Cause.{Cause};
ghost use Rattle.pb_stim.specs.Lines.{Line, IsLine, IsStimulus};
ghost use Rattle.pb_stim.specs.Reading.{line_in};
ghost use Rattle.pb_stim.specs.Faults.{first_fault};
ghost use Rattle.pb_stim.specs.Making.{made};

/// A text is a line exactly where that line is computed of it.
pub fn stimulus_lines_are_computed()
    ensures { (text : List ℕ) (line : Line) → IsLine text line ↔ (line_in text ≡ Some line) }
{}

/// Any bytes are a stimulus, or have a first line that breaks a rule, and never both. A stimulus has its lines in one way.
pub fn stimuli_are_read_or_refused()
    ensures either { (bytes : List ℕ) → ((lines : List Line) × IsStimulus bytes lines) ⊎ ((number : ℕ) × (cause : Cause) × (first_fault bytes ≡ Some (number, cause))) }
    ensures not_both { (bytes : List ℕ) (lines : List Line) → IsStimulus bytes lines → first_fault bytes ≡ None }
    ensures one_way { (bytes : List ℕ) (lines others : List Line) → IsStimulus bytes lines → IsStimulus bytes others → lines ≡ others }
{}

/// The script of one point, with seed 0.
pub fn scripts_are_made_by_example()
    ensures { made 1 0 ≡ codes "0 C 1 COUNTER1.TRIG=TTLIN1.VAL\n0 C 1 PCAP.TRIG=TTLIN1.VAL\n0 C 1 COUNTER1.OUT.CAPTURE=Value\n0 C 1 PCAP.TS_TRIG.CAPTURE=Value\n0 C 1 PCAP.ENABLE=ONE\n0 C 1 *PCAP.ARM=\n0 D 1 BARE\n92 S TTLIN1 1\n93 S TTLIN1 0\n102 C 1 *PCAP.DISARM=\n102 E\n" }
{}
