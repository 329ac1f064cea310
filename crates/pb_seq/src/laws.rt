ghost use Rattle.std.specs.Prelude.{◌≡◌, true, false};
ghost use Rattle.pb_seq.specs.declared.registers.SeqState.TheVariants as states;
ghost use Rattle.pb_seq.specs.Examples.{two_rows, run, emptied, waiting, triggered, shows, bits};

/// A table of two rows, run twice in units of two ticks: six ticks with OUTA and four without. A table
/// write stops it, and with an empty table it is unready.
pub fn sequencer_by_example()
    ensures is_ready { two_rows.registers.state ≡ states.WaitEnable }
    ensures rises { (run 1).registers.out ≡ 1 }
    ensures is_high { (run 6).registers.out ≡ 1 }
    ensures falls { (run 7).registers.out ≡ 0 }
    ensures is_low { (run 10).registers.out ≡ 0 }
    ensures rises_again { (run 11).registers.out ≡ 1 }
    ensures is_active { (run 20).registers.active ≡ true }
    ensures is_over { (run 21).registers.active ≡ false }
    ensures waits { (run 21).registers.state ≡ states.WaitEnable }
    ensures stops { (emptied 13).registers.active ≡ false }
    ensures is_unready { (emptied 13).registers.state ≡ states.Unready }
{}

/// A row that waits for BITA, then has OUTA for two ticks and OUTB for three; ACTIVE is bit 6.
pub fn phases_by_example()
    ensures waits { (waiting 2).registers.state ≡ states.WaitTrigger }
    ensures trigger { (triggered 2 0).registers.state ≡ states.Phase1 }
    ensures begins { shows 2 0 ≡ bits 65 }
    ensures lasts { shows 2 1 ≡ bits 65 }
    ensures second { shows 2 2 ≡ bits 66 }
    ensures second_lasts { shows 2 4 ≡ bits 66 }
    ensures ends { shows 2 5 ≡ bits 0 }
{}
