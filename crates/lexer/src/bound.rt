// How many parts of a name are worth a search: what the parts hold, white space apart, stays in every spelling.
ghost use Rattle.std.specs.Prelude.{◌≤◌, length};
ghost use Rattle.lexer.specs.Fit.{Bounded};

// A number of parts, at most n, above which none can be a name of at most cap characters.
// Ruled out, among others: a prefix left out whose spaces alone make it too long; one part too few at the cap itself.
pub fn bound(rest: &[u32], from: usize, n: usize, cap: usize) -> usize
    requires { from ≤ length rest.now }
    ensures { Bounded rest.now from n cap result }
{
    let mut i = from;
    let mut total = 0;
    for m in 0..n {
        let Ok((start, end)) = crate::parts::next_part(rest, i) else {
            return n;
        };
        i = end;
        total += names::ink::ink_of(&rest[start..end]);
        if cap < total {
            return m;
        }
    }
    n
}
