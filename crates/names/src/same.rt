// Two texts compared. Names mostly differ in their length or an early cell, where a walk takes fewer steps than the comparison of slices, which goes by groups.
ghost use Rattle.std.specs.Prelude.{◌≡◌, ◌==◌, zip};
ghost use Rattle.std.specs.List.{list_all};
ghost use Rattle.names.specs.Same.{same};

#[inline]
fn agree(s: &[u32], t: &[u32]) -> bool
    ensures { result ≡ list_all (λ p. p.0 == p.1) (zip s.now t.now) }
{
    s.iter().zip(t).all(|(a, b)| *a == *b)
}

// Ruled out, among others: a text taken for one that goes on behind it.
#[inline]
pub fn same(s: &[u32], t: &[u32]) -> bool
    ensures { result ≡ same s.now t.now }
{
    s.len() == t.len() && agree(t, s)
}
