// The fields of a line, parted by single spaces: decimal numbers, and texts as code points in hexadecimal.
ghost use Rattle.std.specs.Prelude.{◌≡◌, ◌==◌, cond, ◌+◌, ◌≤◌, length, drop};
ghost use Rattle.std.specs.List.{position};
ghost use Rattle.reading.specs.Look.{cell_at};
ghost use Rattle.reading.specs.Cells as cells;
ghost use Rattle.cases.specs.Laid.{Lays};
ghost use Rattle.cases.specs.Fields.{next_field, number_at, digits_end, decimal_at, decimal_end, times_at, times_end, code_point, code_point_end, code_points, code_points_end, cells_at, cells_end};

use text::hex;

// A line, and the place up to which it is read: the definitions go by places in a line. From behind its end nothing is read.
#[derive(Clone, Copy)]
pub struct Fields<'a> {
    pub line: &'a [u8],
    pub at: usize,
}

// The first place of a byte.
fn place_of(b: u8, bytes: &[u8]) -> Option<usize>
    ensures { result ≡ position (λ x. x == b) bytes.now }
{
    bytes.iter().position(|x| *x == b)
}

// Numbers of a case stay below this.
const NUMBER_LIMIT: u32 = 0x100_0000;

impl<'a> Fields<'a> {
    pub fn new(line: &'a [u8]) -> Fields<'a>
        ensures { (result.line ≡ line.entry) × (result.at ≡ 0) }
    {
        Fields { line, at: 0 }
    }

    // What is still to be read.
    pub fn rest(&self) -> &'a [u8]
        ensures { result.now ≡ drop self.now.at self.now.line.now }
    {
        self.line.get(self.at..).unwrap_or(&[])
    }

    // Goes on to the field behind the next space.
    pub fn next_field(&mut self)
        ensures { (self.new.line ≡ self.old.line) × (self.new.at ≡ next_field self.old.line.now self.old.at) }
    {
        match place_of(b' ', self.rest()) {
            Some(n) => self.at += n + 1,
            None => self.at = self.at.max(self.line.len()),
        }
    }

    // Whether this byte comes next.
    fn is(&self, b: u8) -> bool
        ensures { result ≡ cells.is b (cell_at self.now.line.now self.now.at) }
    {
        self.rest().first().copied() == Some(b)
    }

    // Passes this byte if it comes next.
    fn passes(&mut self, b: u8) -> bool
        ensures { (result ≡ cells.is b (cell_at self.old.line.now self.old.at)) × (self.new.line ≡ self.old.line) × (self.new.at ≡ cond result (self.old.at + 1) self.old.at) }
    {
        let is = self.is(b);
        if is {
            self.at += 1;
        }
        is
    }

    // The number whose digits come next. One that has grown too large is cut, so that no number wraps.
    fn number(&mut self, base: u32) -> u32
        requires { base ≤ 16 }
        ensures { (result ≡ number_at base self.old.line.now self.old.at) × (self.new.line ≡ self.old.line) × (self.new.at ≡ digits_end base self.old.line.now self.old.at) }
    {
        let mut n = 0;
        for b in self.rest() {
            match hex::hex_to_decimal(u32::from(*b)) {
                Some(d) if d < base => n = n % NUMBER_LIMIT * base + d,
                _ => return n,
            }
            self.at += 1;
        }
        n
    }

    // A number that is a field of its own.
    pub fn decimal(&mut self) -> u32
        ensures { (result ≡ decimal_at self.old.line.now self.old.at) × (self.new.line ≡ self.old.line) × (self.new.at ≡ decimal_end self.old.line.now self.old.at) }
    {
        let n = self.number(10);
        self.next_field();
        n
    }

    // How often a code point stands there: as often as the number behind a star says, or once.
    fn times(&mut self) -> u32
        ensures { (result ≡ times_at self.old.line.now self.old.at) × (self.new.line ≡ self.old.line) × (self.new.at ≡ times_end self.old.line.now self.old.at) }
    {
        if self.passes(b'*') {
            return self.number(16);
        }
        1
    }

    // Writes the code point that comes next as often as it stands there, as far as there is room; answers how many cells those are.
    fn code_point(&mut self, out: &mut [u32]) -> usize
        ensures { Lays out.old 0 (code_point self.old.line.now self.old.at) result out.new × (self.new.line ≡ self.old.line) × (self.new.at ≡ code_point_end self.old.line.now self.old.at) }
    {
        let c = self.number(16);
        let n = out.len().min(self.times() as usize);
        out[..n].fill(c);
        n
    }

    // The same of code points joined by commas.
    fn code_points(&mut self, out: &mut [u32]) -> usize
        ensures { Lays out.old 0 (code_points (length self.old.line.now) self.old.line.now self.old.at) result out.new × (self.new.line ≡ self.old.line)
            × (self.new.at ≡ code_points_end (length self.old.line.now) self.old.line.now self.old.at) }
    {
        let mut k = 0;
        while self.at < self.line.len() {
            k += self.code_point(&mut out[k..]);
            if !self.passes(b',') {
                return k;
            }
        }
        k
    }

    // Writes the cells of a text, `-` or code points, as far as there is room; answers how many those are.
    pub fn cells(&mut self, out: &mut [u32]) -> usize
        ensures { Lays out.old 0 (cells_at self.old.line.now self.old.at) result out.new × (self.new.line ≡ self.old.line) × (self.new.at ≡ cells_end self.old.line.now self.old.at) }
    {
        let n = if self.is(b'-') {
            0
        } else {
            self.code_points(out)
        };
        self.next_field();
        n
    }
}
