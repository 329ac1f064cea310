ghost use Rattle.std.specs.Prelude.{◌≡◌, ◌≤◌, ◌++◌, true, length, drop};
ghost use Rattle.pb_fields.specs.Slots.{IsSlot, role_at};
ghost use Rattle.pb_fields.specs.Values.{shown, bit_raw};
ghost use Rattle.pb_changes.specs.Groups.{is_settled};
ghost use Rattle.pb_config.specs.Showing.{is_line, is_readable, shown_at};
ghost use Rattle.pb_model.specs.Kept.{stands_of};
ghost use Rattle.pb_going.specs.Sims.{now_of};
ghost use Rattle.pb_core.specs.Queries.{position_of, level_shown, position_shown};
ghost use Rattle.pb_core.specs.Telling.{shown_now};

use pb_config::Config;
use pb_fields::{FieldKind, Role, Slot, int_raw, output_entry, role, show};
use pb_jump::Sim;
use pb_names::position_bus;
use pb_words::put_front;

/// The most bytes of what is shown in one line.
pub(crate) const ROOM: usize = 128;

/// Writes what is shown of a setting, an attribute or an output at the front of `out`, and answers its length.
#[tactic(auto, using(crate::proofs::FaceLemmas::setting_line, crate::proofs::FaceLemmas::settled_unread, crate::proofs::FaceLemmas::setting_shown))]
pub(crate) fn show_settled(config: &Config, sim: &Sim, slot: Slot, out: &mut [u8]) -> usize
    requires slot { IsSlot slot }
    requires settled { is_settled slot ≡ true }
    requires room { 128 ≤ length out.old }
    ensures len { result ≡ length (shown_now config.now.settings (stands_of (now_of sim.now)) slot) }
    ensures written { out.new ≡ shown_now config.now.settings (stands_of (now_of sim.now)) slot ++ drop (length (shown_now config.now.settings (stands_of (now_of sim.now)) slot)) out.old }
{
    match role(slot) {
        Role::BitOut => show_level(sim, slot, out),
        Role::PosOut => show_position(sim, slot, out),
        _ => show_setting(config, slot, out),
    }
}

/// Writes the level of an output.
fn show_level(sim: &Sim, slot: Slot, out: &mut [u8]) -> usize
    requires slot { IsSlot slot }
    requires output { role_at slot ≡ Role.BitOut }
    requires room { 128 ≤ length out.old }
    ensures len { result ≡ length (level_shown (stands_of (now_of sim.now)) slot) }
    ensures written { out.new ≡ level_shown (stands_of (now_of sim.now)) slot ++ drop (length (level_shown (stands_of (now_of sim.now)) slot)) out.old }
{
    put_front(level_shown(sim, slot), out)
}

/// What is shown of the level of an output.
#[tactic(auto, using(crate::proofs::FaceLemmas::level_kind))]
pub(crate) fn level_shown(sim: &Sim, slot: Slot) -> &'static [u8]
    requires slot { IsSlot slot }
    requires output { role_at slot ≡ Role.BitOut }
    ensures shown { result.now ≡ level_shown (stands_of (now_of sim.now)) slot }
    ensures short { length result.now ≤ 128 }
{
    level_text(sim.buses().selected(output_entry(slot)))
}

fn level_text(level: bool) -> &'static [u8]
    ensures shown { result.now ≡ shown FieldKind.Bit (bit_raw level) }
    ensures short { length result.now ≤ 128 }
{
    if level { b"1" } else { b"0" }
}

/// Writes the value of a position.
#[tactic(auto, using(crate::proofs::FaceLemmas::position_kind))]
pub(crate) fn show_position(sim: &Sim, slot: Slot, out: &mut [u8]) -> usize
    requires slot { IsSlot slot }
    requires output { role_at slot ≡ Role.PosOut }
    requires room { 128 ≤ length out.old }
    ensures len { result ≡ length (position_shown (stands_of (now_of sim.now)) slot) }
    ensures written { out.new ≡ position_shown (stands_of (now_of sim.now)) slot ++ drop (length (position_shown (stands_of (now_of sim.now)) slot)) out.old }
{
    show(FieldKind::Int, int_raw(position(sim, slot)), out)
}

/// The value of the position that the slot's field is.
pub(crate) fn position(sim: &Sim, slot: Slot) -> i32
    requires { IsSlot slot }
    ensures { result ≡ position_of (stands_of (now_of sim.now)) slot }
{
    let entry = output_entry(slot).saturating_sub(position_bus::FIRST);
    sim.buses().selected_position(entry)
}

/// Writes what is shown of a setting at the front of `out`, and answers its length.
fn show_setting(config: &Config, slot: Slot, out: &mut [u8]) -> usize
    requires slot { IsSlot slot }
    requires line { is_line slot ≡ true }
    requires readable { is_readable slot ≡ true }
    requires room { 128 ≤ length out.old }
    ensures len { result ≡ length (shown_at config.now.settings slot) }
    ensures written { out.new ≡ shown_at config.now.settings slot ++ drop (length (shown_at config.now.settings slot)) out.old }
{
    match config.show(slot, out) {
        Ok(len) => len,
        Err(_) => unreachable!(),
    }
}
