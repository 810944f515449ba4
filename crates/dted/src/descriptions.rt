// The description of a cell, as numbers.
ghost use Rattle.std.specs.Prelude.{◌≡◌};
ghost use Rattle.host_answers.specs.Packed.{packed};
ghost use Rattle.description.specs.Described.{described};
ghost use Rattle.dted.specs.Description.{said_of_described, items_after};

use host_items::items::ITEMS;
use host_items::numbers::put_numbers;

pub fn dted_describe(cell: &[u8], items: &mut [i64; ITEMS]) -> u64
    ensures answer { result ≡ packed (said_of_described (described cell.now)) }
    ensures lent { items.new ≡ items_after (described cell.now) items.old }
{
    match description::describe::describe(cell) {
        Ok(description) => {
            put_numbers(items, description);
            0
        }
        Err(refusal) => host_answers::refusal(refusal),
    }
}
