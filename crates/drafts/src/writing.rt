// Writing a draft as bytes into lent memory.
//
// Each function that puts something puts it at the front of the memory that it is lent, and says how many bytes it took.
ghost use Rattle.std.specs.Prelude.{◌≡◌, ◌+◌, ◌-◌, ◌*◌, ◌^◌, ◌≤◌, min, ◌∷◌, ◌++◌, length, drop};
ghost use Rattle.amount.specs.Form.{meaning};
ghost use Rattle.agreement.specs.Agreement.{none};
ghost use Rattle.agreement.specs.Bytes.{two, four};
ghost use Rattle.agreement.specs.Writing.{writing, writing_acts, amount as amount_bytes, count as act_count};
ghost use Rattle.drafts.specs.Draft.{drawn, drawn_act, drawn_acts, draft_bytes, fitting, memory_after, ReadBack};
ghost use Rattle.drafts.specs.Size.{size, size_acts};

use crate::{Act, Draft, Thing};
use agreement::{ActKind, Fault, Refusal, ThingKind};
use amount::Amount;

// Puts bytes.
fn put<const N: usize>(bytes: [u8; N], out: &mut [u8]) -> usize
    requires { N ≤ length out.old }
    ensures end { result ≡ N }
    ensures puts { out.new ≡ bytes.entry ++ drop result out.old }
{
    out[..N].copy_from_slice(&bytes);
    N
}

// Puts an amount: its base, and its cents for each unit of each slot, 0 past the last slot that an amount has. It is
// not inlined, so that the recursion around it takes less stack.
#[inline(never)]
fn put_amount(amount: &Amount, slots: u8, out: &mut [u8]) -> usize
    requires { 4 + 2 * slots ≤ length out.old }
    ensures end { result ≡ 4 + 2 * slots }
    ensures puts { out.new ≡ amount_bytes slots (meaning amount.now) (drop result out.old) }
{
    let mut end = put(amount.base.to_le_bytes(), out);
    for slot in 0..usize::from(slots) {
        let rate = amount.per.get(slot).copied().unwrap_or(0);
        end += put(rate.to_le_bytes(), &mut out[end..]);
    }
    end
}

// Puts what stands before the rest of a payment or a deposit: its kind, two parties and an amount.
fn put_transfer(kind: u8, from: u8, to: u8, amount: &Amount, slots: u8, out: &mut [u8]) -> usize
    requires { 7 + 2 * slots ≤ length out.old }
    ensures end { result ≡ 7 + 2 * slots }
    ensures puts { out.new ≡ kind ∷ from ∷ to ∷ amount_bytes slots (meaning amount.now) (drop result out.old) }
{
    let end = put([kind, from, to], out);
    end + put_amount(amount, slots, &mut out[end..])
}

// Puts what stands before the two ways of a fork.
fn put_fork(slot: u8, bound: u32, out: &mut [u8]) -> usize
    requires { 6 ≤ length out.old }
    ensures end { result ≡ 6 }
    ensures puts { out.new ≡ 2 ∷ slot ∷ four bound (drop result out.old) }
{
    let end = put([ThingKind::Fork as u8, slot], out);
    end + put(bound.to_le_bytes(), &mut out[end..])
}

// Puts what stands before the acts of a waiting.
fn put_wait(day: u16, count: u8, out: &mut [u8]) -> usize
    requires { 4 ≤ length out.old }
    ensures end { result ≡ 4 }
    ensures puts { out.new ≡ 3 ∷ two day (count ∷ drop result out.old) }
{
    let mut end = put([ThingKind::Wait as u8], out);
    end += put(day.to_le_bytes(), &mut out[end..]);
    end + put([count], &mut out[end..])
}

// Puts what stands before the rest of a choice.
fn put_choice(party: u8, slot: u8, low: u32, high: u32, out: &mut [u8]) -> usize
    requires { 11 ≤ length out.old }
    ensures end { result ≡ 11 }
    ensures puts { out.new ≡ 2 ∷ party ∷ slot ∷ four low (four high (drop result out.old)) }
{
    let mut end = put([ActKind::Choice as u8, party, slot], out);
    end += put(low.to_le_bytes(), &mut out[end..]);
    end + put(high.to_le_bytes(), &mut out[end..])
}

// How many acts there are, or the largest byte where there are more.
#[tactic(auto, using(crate::proofs::Acts::count_drawn))]
fn count(acts: &[Act<Thing>]) -> u8
    ensures { result ≡ min (act_count (drawn_acts acts.now)) 255 }
{
    u8::try_from(acts.len()).unwrap_or(u8::MAX)
}

// How many bytes a transfer takes before its rest.
fn transfer_size(slots: u8) -> usize
    ensures { result ≡ 7 + 2 * slots }
{
    7 + 2 * usize::from(slots)
}

// How many bytes a thing takes, or the largest number where there are more: no memory is as long as that. What follows
// last is counted in turn, which takes no stack, and what stands before that by a call.
#[cycle(size)]
#[tactic(auto, using(crate::proofs::Before::parts))]
fn thing_size(mut thing: &Thing, slots: u8) -> usize
    ensures { result ≡ min (size slots (drawn thing.now)) (2 ^ 64 - 1) }
{
    let mut size = 0usize;
    loop {
        match thing {
            Thing::Over => return size.saturating_add(1),
            Thing::Pay { rest, .. } => {
                size = size.saturating_add(transfer_size(slots));
                thing = rest;
            }
            Thing::Fork {
                below,
                otherwise,
                ..
            } => {
                size = size
                    .saturating_add(6)
                    .saturating_add(thing_size(below, slots));
                thing = otherwise;
            }
            Thing::Wait { acts, rest, .. } => {
                size = size
                    .saturating_add(4)
                    .saturating_add(acts_size(acts, slots));
                thing = rest;
            }
        }
    }
}

// How many bytes acts take, in the same way.
#[cycle(size)]
fn acts_size(acts: &[Act<Thing>], slots: u8) -> usize
    ensures { result ≡ min (size_acts slots (drawn_acts acts.now)) (2 ^ 64 - 1) }
{
    let mut size = 0usize;
    for act in acts {
        size = size.saturating_add(act_size(act, slots));
    }
    size
}

// How many bytes an act takes, in the same way.
#[cycle(size)]
#[tactic(auto, using(crate::proofs::Before::lengths))]
fn act_size(act: &Act<Thing>, slots: u8) -> usize
    ensures { result ≡ min (size_acts slots (drawn_act act.now none)) (2 ^ 64 - 1) }
{
    match act {
        Act::Deposit { rest, .. } => thing_size(rest, slots).saturating_add(transfer_size(slots)),
        Act::Choice { rest, .. } => thing_size(rest, slots).saturating_add(11),
    }
}

// Puts a thing. What follows last is put in turn, which takes no stack, and what stands before that by a call.
#[cycle(put)]
#[tactic(auto, using(crate::proofs::Before::parts))]
fn put_thing(mut thing: &Thing, slots: u8, out: &mut [u8]) -> usize
    requires { size slots (drawn thing.now) ≤ length out.old }
    ensures end { result ≡ size slots (drawn thing.now) }
    ensures puts { out.new ≡ writing slots (drawn thing.now) (drop result out.old) }
{
    let mut end = 0;
    loop {
        match thing {
            Thing::Over => return end + put([ThingKind::Over as u8], &mut out[end..]),
            Thing::Pay {
                from,
                to,
                amount,
                rest,
            } => {
                let kind = ThingKind::Pay as u8;
                end += put_transfer(kind, *from, *to, amount, slots, &mut out[end..]);
                thing = rest;
            }
            Thing::Fork {
                slot,
                bound,
                below,
                otherwise,
            } => {
                end += put_fork(*slot, *bound, &mut out[end..]);
                end += put_thing(below, slots, &mut out[end..]);
                thing = otherwise;
            }
            Thing::Wait { day, acts, rest } => {
                end += put_wait(*day, count(acts), &mut out[end..]);
                end += put_acts(acts, slots, &mut out[end..]);
                thing = rest;
            }
        }
    }
}

// Puts acts. It is not inlined, so that the recursion in `put_thing` takes less stack.
#[cycle(put)]
#[inline(never)]
fn put_acts(acts: &[Act<Thing>], slots: u8, out: &mut [u8]) -> usize
    requires { size_acts slots (drawn_acts acts.now) ≤ length out.old }
    ensures end { result ≡ size_acts slots (drawn_acts acts.now) }
    ensures puts { out.new ≡ writing_acts slots (drawn_acts acts.now) (drop result out.old) }
{
    let mut end = 0;
    for act in acts {
        end += put_act(act, slots, &mut out[end..]);
    }
    end
}

// Puts an act.
#[cycle(put)]
#[tactic(auto, using(crate::proofs::Before::lengths))]
fn put_act(act: &Act<Thing>, slots: u8, out: &mut [u8]) -> usize
    requires { size_acts slots (drawn_act act.now none) ≤ length out.old }
    ensures end { result ≡ size_acts slots (drawn_act act.now none) }
    ensures puts { out.new ≡ writing_acts slots (drawn_act act.now none) (drop result out.old) }
{
    match act {
        Act::Deposit {
            party,
            account,
            amount,
            rest,
        } => {
            let end = put_transfer(ActKind::Deposit as u8, *party, *account, amount, slots, out);
            end + put_thing(rest, slots, &mut out[end..])
        }
        Act::Choice {
            party,
            slot,
            low,
            high,
            rest,
        } => {
            let end = put_choice(*party, *slot, *low, *high, out);
            end + put_thing(rest, slots, &mut out[end..])
        }
    }
}

// Writes a draft's bytes to the front of memory, and says how many they are. Memory that is too short stays as it is.
pub fn write(draft: &Draft, out: &mut [u8]) -> Result<usize, Refusal>
    ensures answer { result ≡ fitting (length (draft_bytes draft.now)) (length out.old) }
    ensures memory { out.new ≡ memory_after (draft_bytes draft.now) out.old }
    ensures back { ReadBack draft.now out.new result }
{
    let bytes = thing_size(&draft.first, draft.slots).saturating_add(2);
    if out.len() < bytes {
        return Err(Refusal {
            fault: Fault::Memory,
            place: 2,
        });
    }
    let end = put([draft.parties, draft.slots], out);
    Ok(end + put_thing(&draft.first, draft.slots, &mut out[end..]))
}
