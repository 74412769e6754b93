ghost use Rattle.std.specs.Prelude.{◌≡◌, ℕ, ◌*◌, ◌<◌, ◌↔◌, List, length, All, IfOk, IsTrue, MatchResult};
ghost use Rattle.orderfile.specs.Records.{word_at, ReadRefused, Read, WritesBack};
ghost use Rattle.orderfile.specs.Orders.{shown, shown_answer};
ghost use Rattle.orderfile.specs.RuleNames.{rule_name_number, entry_size};
ghost use Rattle.orderfile.specs.Reading.{Told, RuleRead, entries_in};

use crate::fault::OrderFault;
use crate::order::Order;
use crate::rule_name::RuleName;
use crate::write::HEADER;
use grid::sides::Sides;
use rules::any::AnyRule;
use rules::kind::KindRule;
use rules::kind::acts::all_kinds_exist;
use rules::number::NumberRule;
use std::alloc::{AllocError, Global};

// What stands before the lists, but for the mark and the version.
#[derive(Clone, Copy)]
struct Header {
    sides: Sides,
    rule: RuleName,
}

fn read_header(bytes: &[u8]) -> Result<Header, OrderFault>
    ensures { MatchResult result (λ h. Told bytes.now h.sides.height h.sides.width (rule_name_number h.rule)) (λ f. ReadRefused bytes.now f) }
{
    let header = bytes.first_chunk::<HEADER>().ok_or(OrderFault::BadLength)?;
    let [first, second, third, high, low, sides, rule] = *header;
    if [first, second, third] != *b"LFO" {
        return Err(OrderFault::BadMark);
    }
    if [high, low] != [0, 1] {
        return Err(OrderFault::BadVersion);
    }
    let rule = RuleName::try_from(rule)?;
    let height = usize::from(sides / 16) + 1;
    let width = usize::from(sides % 16) + 1;
    let sides = Sides::new(height, width).ok_or(OrderFault::BadSides)?;
    Ok(Header { sides, rule })
}

// The 16-bit entry in two bytes, high byte first.
fn word(pair: &[u8; 2]) -> u16
    ensures { result ≡ word_at pair.now 0 }
{
    u16::from_be_bytes(*pair)
}

// Whether the entries are all below a limit.
fn all_entries_below(pairs: &[[u8; 2]], limit: usize) -> bool
    ensures { IsTrue result ↔ All (λ (pair : List ℕ). word_at pair 0 < limit) pairs.now }
{
    pairs.iter().all(|pair| usize::from(word(pair)) < limit)
}

// The kinds and the entries in lists of their own: the one place where reading asks for memory.
fn kept(heap: Global, kinds: &[u8], pairs: &[[u8; 2]]) -> Result<(Vec<u8>, Vec<u16>), AllocError>
    ensures { IfOk result (λ lists. (lists.0.items ≡ kinds.now) × (lists.1.items ≡ entries_in pairs.now)) }
{
    let kinds = Vec::from_slice(heap, kinds)?;
    let entries = pairs.iter().map(word).collect(heap)?;
    Ok((kinds, entries))
}

fn read_wanted(heap: Global, slots: usize, body: &[u8]) -> Result<AnyRule, OrderFault>
    requires { length body.now ≡ 2 * slots }
    ensures { RuleRead RuleName.Number slots body.now result }
{
    let (pairs, _) = body.as_chunks();
    if !all_entries_below(pairs, slots) {
        return Err(OrderFault::BadEntry);
    }
    // a number record has no kinds; one function asks for memory, whatever the rule
    let (_, wanted) = kept(heap, &[], pairs)?;
    Ok(NumberRule::new(wanted)?.into())
}

fn read_kinds(heap: Global, slots: usize, body: &[u8]) -> Result<AnyRule, OrderFault>
    requires { length body.now ≡ 3 * slots }
    ensures { RuleRead RuleName.Kind slots body.now result }
{
    let (kinds, masks) = body.split_at(slots);
    if !all_kinds_exist(kinds) {
        return Err(OrderFault::BadEntry);
    }
    let (pairs, _) = masks.as_chunks();
    let (kinds, masks) = kept(heap, kinds, pairs)?;
    Ok(KindRule::new(kinds, masks)?.into())
}

// Kept as it is: a struct of these parameters would be taken apart at once by the function that it is handed to.
fn read_rule(heap: Global, rule: RuleName, slots: usize, body: &[u8]) -> Result<AnyRule, OrderFault>
    requires { length body.now ≡ entry_size rule * slots }
    ensures { RuleRead rule slots body.now result }
{
    match rule {
        RuleName::Number => read_wanted(heap, slots, body),
        RuleName::Kind => read_kinds(heap, slots, body),
    }
}

// The order that a record holds.
pub fn read(heap: Global, bytes: &[u8]) -> Result<Order, OrderFault>
    ensures read { Read bytes.now (shown_answer result) }
    ensures writes_back { IfOk result (λ o. WritesBack (shown o) bytes.now) }
{
    let Header { sides, rule } = read_header(bytes)?;
    let slots = sides.slots();
    if bytes.len() != HEADER + rule.entry_size() * slots {
        return Err(OrderFault::BadLength);
    }
    let rule = read_rule(heap, rule, slots, &bytes[HEADER..])?;
    Ok(Order { sides, rule })
}
