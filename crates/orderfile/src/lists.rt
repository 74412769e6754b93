// The lists of a record that is to be written, lent.
ghost use Rattle.std.specs.Prelude.{◌≡◌, ◌+◌, ◌*◌, ◌++◌, length, MatchBool};
ghost use Rattle.orderfile.specs.Records.{words, list_bytes, lists_of, rule_number, Sized, GoodEntries, Words, WordLists};
ghost use Rattle.orderfile.specs.RuleNames.{rule_name_number};
ghost use Rattle.orderfile.specs.RecordLists.{shown_lists};

use crate::rule_name::RuleName;
use rules::kind::acts::all_kinds_exist;
use rules::number::acts::all_wanted_exist;

#[derive(Clone, Copy)]
pub(crate) enum RecordLists<'a> {
    // The wanted carriers, by slot.
    Wanted(&'a [u16]),
    // The kinds, by carrier, and the masks, by slot.
    Kinds(&'a [u8], &'a [u16]),
}

// Whether there is an entry for each slot. Each has 16 bits.
fn has_entries(entries: &[u16], slots: usize) -> bool
    ensures { MatchBool result ((length entries.now ≡ slots) × Words entries.now) (length entries.now ≡ slots → ⊥) }
{
    entries.len() == slots
}

// Each entry in two bytes, high byte first.
fn write_words(out: &mut [u8], entries: &[u16])
    requires { length out.old ≡ 2 * length entries.now }
    ensures { out.new ≡ words entries.now }
{
    // Kept as it is: over `out.chunks_exact_mut(2).zip(entries)` the proof knows how long the buffer is afterwards, and no byte.
    for (k, entry) in entries.iter().enumerate() {
        let [high, low] = entry.to_be_bytes();
        out[2 * k] = high;
        out[2 * k + 1] = low;
    }
}

// The kinds, and then the masks.
fn write_kinds_and_masks(out: &mut [u8], kinds: &[u8], masks: &[u16])
    requires { length out.old ≡ length kinds.now + 2 * length masks.now }
    ensures { out.new ≡ kinds.now ++ words masks.now }
{
    let middle = kinds.len();
    out[..middle].copy_from_slice(kinds);
    write_words(&mut out[middle..], masks);
}

impl<'a> RecordLists<'a> {
    // The lists that the rule has: a number rule has no kinds.
    pub(crate) fn of(rule: RuleName, kinds: &'a [u8], entries: &'a [u16]) -> RecordLists<'a>
        ensures { shown_lists result ≡ lists_of (rule_name_number rule) kinds.now entries.now }
    {
        match rule {
            RuleName::Number => RecordLists::Wanted(entries),
            RuleName::Kind => RecordLists::Kinds(kinds, entries),
        }
    }

    pub(crate) fn rule(self) -> RuleName
        ensures { rule_name_number result ≡ rule_number (shown_lists self.entry) }
    {
        match self {
            RecordLists::Wanted(_) => RuleName::Number,
            RecordLists::Kinds(..) => RuleName::Kind,
        }
    }

    // Whether each list has an entry for each slot or carrier.
    pub(crate) fn has_each(self, slots: usize) -> bool
        ensures { MatchBool result (Sized slots (shown_lists self.entry) × WordLists (shown_lists self.entry)) (Sized slots (shown_lists self.entry) → ⊥) }
    {
        match self {
            RecordLists::Wanted(wanted) => has_entries(wanted, slots),
            RecordLists::Kinds(kinds, masks) => kinds.len() == slots && has_entries(masks, slots),
        }
    }

    // Whether every wanted carrier and every kind exists.
    pub(crate) fn all_exist(self) -> bool
        ensures { MatchBool result (GoodEntries (shown_lists self.entry)) (GoodEntries (shown_lists self.entry) → ⊥) }
    {
        match self {
            RecordLists::Wanted(wanted) => all_wanted_exist(wanted),
            RecordLists::Kinds(kinds, _) => all_kinds_exist(kinds),
        }
    }

    pub(crate) fn write(self, out: &mut [u8])
        requires { length out.old ≡ length (list_bytes (shown_lists self)) }
        ensures { out.new ≡ list_bytes (shown_lists self.entry) }
    {
        match self {
            RecordLists::Wanted(wanted) => write_words(out, wanted),
            RecordLists::Kinds(kinds, masks) => write_kinds_and_masks(out, kinds, masks),
        }
    }
}
