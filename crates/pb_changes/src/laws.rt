ghost use Rattle.std.specs.Prelude.{◌≡◌, ℕ, ◌<◌, ◌≤◌, true, List, [], ◌∷◌, length, map, codes, Option, Some, None};
ghost use Rattle.pb_fields.specs.declared.Slot.{Slot};
ghost use Rattle.pb_replies.specs.Replies.{list_reply};
ghost use Rattle.pb_changes.specs.declared.groups.Group.{Group};
ghost use Rattle.pb_changes.specs.Groups.{all_groups, slots_in};
ghost use Rattle.pb_fields.specs.Assigned.{last_assignment, last_place};
ghost use Rattle.pb_changes.specs.Past.{Past};
ghost use Rattle.pb_changes.specs.Report.{Reported, opening, is_reported, noted, report, after_report};
ghost use Rattle.pb_changes.specs.Examples.{at_reset, at_end, after_change, shown_then};

/// A second report at once, with nothing between, is empty, but for what was assigned at the last place that
/// is told or later.
pub fn second_report_at_once_is_empty()
    ensures empty { (reported : Reported) (past : Past) (shows : Slot → List ℕ) (group : Option Group) →
        length past.assigned < last_place →
        report (after_report reported past shows group) past shows group ≡ list_reply [] }
    ensures late { (reported : Reported) (past : Past) (shows : Slot → List ℕ) (group : Group) (slot : Slot) →
        is_reported (noted past shows reported group) past shows group slot ≡ true →
        last_place ≤ last_assignment slot past.assigned }
{}

/// How many slots each group has, in the order of a report: 504 lines in all.
pub fn groups_have_their_sizes()
    ensures { map (λ group. length (slots_in group)) all_groups ≡ 222 ∷ 181 ∷ 2 ∷ 63 ∷ 12 ∷ 24 ∷ [] }
{}

/// Reports of a few pasts. What was assigned twice has one line, a pulse that is over has one, and each group
/// goes by the catalogue, the outputs of BITS before those of LUT.
pub fn reports_by_example()
    ensures changes { report at_reset at_end shown_then None ≡ codes "!LUT1.FUNC=A&B\n!LUT2.FUNC=B\n!TTLIN2.VAL=0\n.\n" }
    ensures tables { report opening at_end shown_then (Some Group.Table) ≡ codes "!SEQ1.TABLE<\n!SEQ2.TABLE<\n.\n" }
    ensures order { report at_reset after_change shown_then (Some Group.Bits) ≡ codes "!BITS.OUTA=0\n!LUT1.OUT=0\n.\n" }
{}
