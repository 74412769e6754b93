ghost use Rattle.std.specs.Prelude.{◌≡◌, length, take, IfOk};
ghost use Rattle.orderfile.specs.Records.{header_bytes, rule_number, OrderView, order_of, Written, ReadsBack};
ghost use Rattle.orderfile.specs.Orders.{shown, rule_lists};
ghost use Rattle.orderfile.specs.RuleNames.{rule_name_number};
ghost use Rattle.orderfile.specs.RecordLists.{shown_lists};

use crate::fault::OrderFault;
use crate::lists::RecordLists;
use crate::order::Order;
use crate::rule_name::RuleName;
use grid::sides::Sides;
use rules::any::AnyRule;

// How many bytes stand before the lists.
pub const HEADER: usize = 7;

// The mark, the version, the sides and the rule.
fn header(sides: Sides, rule: RuleName) -> [u8; HEADER]
    ensures { result ≡ header_bytes sides.height sides.width (rule_name_number rule) }
{
    let sides_byte = ((sides.height - 1) * 16 + (sides.width - 1)) as u8;
    [b'L', b'F', b'O', 0, 1, sides_byte, rule.number()]
}

fn write_record(sides: Sides, lists: RecordLists, out: &mut [u8]) -> Result<usize, OrderFault>
    ensures { Written (record { height = sides.height; width = sides.width; lists = shown_lists lists.entry }) (rule_number (shown_lists lists.entry)) out.old result out.new }
{
    let slots = sides.slots();
    if !lists.has_each(slots) {
        return Err(OrderFault::BadLength);
    }
    if !lists.all_exist() {
        return Err(OrderFault::BadEntry);
    }
    let rule = lists.rule();
    let end = HEADER + rule.entry_size() * slots;
    if out.len() < end {
        return Err(OrderFault::NoRoom);
    }
    out[..HEADER].copy_from_slice(&header(sides, rule));
    lists.write(&mut out[HEADER..end]);
    Ok(end)
}

// Writes the record of an order at the front of a buffer, and answers its length. The rule is 1 number or 2 kind;
// kinds go by carrier and are looked at under the kind rule alone; entries, by slot, are wanted carriers or masks.
// Kept as it is: the rule comes as a number, since this call asks whether there is such a rule and refuses what is none.
pub fn write(
    height: usize,
    width: usize,
    rule: u8,
    kinds: &[u8],
    entries: &[u16],
    out: &mut [u8],
) -> Result<usize, OrderFault>
    ensures written { Written (order_of height width rule kinds.now entries.now) rule out.old result out.new }
    ensures reads_back { IfOk result (λ n. ReadsBack (order_of height width rule kinds.now entries.now) (take n out.new)) }
{
    let sides = Sides::new(height, width).ok_or(OrderFault::BadSides)?;
    let rule = RuleName::try_from(rule)?;
    write_record(sides, RecordLists::of(rule, kinds, entries), out)
}

impl Order {
    fn lists(&self) -> RecordLists
        ensures { shown_lists result ≡ rule_lists self.now.rule }
    {
        match &self.rule {
            AnyRule::Number(rule) => RecordLists::Wanted(rule.wanted()),
            AnyRule::Kind(rule) => RecordLists::Kinds(rule.kinds(), rule.masks()),
        }
    }

    // Writes the order's record at the front of a buffer, and answers its length.
    pub fn write(&self, out: &mut [u8]) -> Result<usize, OrderFault>
        ensures written { Written (shown self.now) (rule_number (shown self.now).lists) out.old result out.new }
        ensures reads_back { IfOk result (λ n. ReadsBack (shown self.now) (take n out.new)) }
    {
        write_record(self.sides, self.lists(), out)
    }
}
