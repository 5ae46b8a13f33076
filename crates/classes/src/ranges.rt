// Tables of ranges.
ghost use Rattle.std.specs.Prelude.{◌≡◌, true};
ghost use Rattle.spec.specs.Grammar.Ranges.{in_table, ascending};
ghost use Rattle.classes.specs.Classes.{ends};

// Whether x lies in a range of the table: the first range that does not end below x decides. By halves, since a table has up to
// 202 ranges.
pub(crate) fn in_ranges(table: &[(u16, u16)], x: u16) -> bool
    requires { ascending (ends table.now) ≡ true }
    ensures { result ≡ in_table (ends table.now) x }
{
    let i = table.partition_point(|&(_, last)| last < x);
    match table.get(i) {
        Some(&(first, _)) => first <= x,
        None => false,
    }
}
