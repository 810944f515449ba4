// The rows of the field table: whether some keep their rules, and the first of some that does not.
ghost use Rattle.std.specs.Prelude.{◌≡◌, Bool, true, ℕ, ◌+◌, ◌-◌, Option, Some, None};
ghost use Rattle.octets.specs.Choice.{pick, both};
ghost use Rattle.octets.specs.Scan.{scan};
ghost use Rattle.fields.specs.Table.{field_at};
ghost use Rattle.headers.specs.Judged as by;
ghost use Rattle.headers.specs.Asked.{RowsToJudge, RowToTell};

use due::Basis;
use fields::FIELDS;
use rules::kinds::keeps;

// Level and origin stand in the first rows, in which nothing is due by them.
pub const FIRST: usize = 4;

// Whether the field of a row keeps its rule. Kept: bytes, basis and row by themselves, as `keeps` has them, and one record of what is asked.
fn row_keeps(s: &[u8], basis: Basis, row: usize) -> bool
    requires { RowToTell s.now basis row }
    ensures { result ≡ by.keeps s.now basis (field_at row) }
{
    let field = fields::row(row);
    keeps(field.2, basis, field.bytes(s))
}

// The first row from `from` on and below `to` whose field breaks its rule.
pub fn first_broken(s: &[u8], basis: Basis, from: usize, to: usize) -> Option<usize>
    requires { RowsToJudge s.now basis from to }
    ensures { result ≡ scan (λ (i : ℕ) (rest : Option ℕ). pick (by.keeps s.now basis (field_at i)) rest (Some i)) None from (to - from) }
{
    (from..to).find(|row| !row_keeps(s, basis, *row))
}

// Whether four rows keep their rules.
pub fn four_keep(s: &[u8], basis: Basis, from: usize) -> bool
    requires { RowsToJudge s.now basis from (from + 4) }
    ensures { result ≡ scan (λ (i : ℕ) (rest : Bool). both (by.keeps s.now basis (field_at i)) rest) true from 4 }
{
    first_broken(s, basis, from, from + 4).is_none()
}

// Whether all rows after the first four keep their rules.
pub fn rest_keep(s: &[u8], basis: Basis) -> bool
    requires { RowsToJudge s.now basis 4 40 }
    ensures { result ≡ scan (λ (i : ℕ) (rest : Bool). both (by.keeps s.now basis (field_at i)) rest) true 4 36 }
{
    first_broken(s, basis, FIRST, FIELDS).is_none()
}
