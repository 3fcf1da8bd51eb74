// One edit of a text, and the places behind it.
ghost use Rattle.std.specs.Prelude.{◌+◌, ◌≤◌};
ghost use Rattle.text.specs.Limits.{max_chars};

// The cells from `from` up to `to` give way to `size` others.
#[derive(Clone, Copy)]
pub struct Edit {
    pub from: usize,
    pub to: usize,
    pub size: usize,
    pub ghost small: { from + size ≤ max_chars },
}

impl Edit {
    ghost use Rattle.std.specs.Prelude.{◌≡◌, ◌<◌};
    ghost use Rattle.runs.specs.Edit as spec;
    ghost use Rattle.runs.specs.Copied.{edit_of};

    // A place at `to` or behind it, moved.
    pub fn moved(self, q: usize) -> usize
        requires { (self.to ≤ q) × (q < 4_294_967_296) }
        ensures { result ≡ spec.moved (edit_of self) q }
    {
        q - self.to + (self.from + self.size)
    }
}
