// Texts and numbers in decimal digits, written into lent bytes.
#![tactic(auto)]

ghost use Rattle.std.specs.Prelude.{◌≡◌, ◌≤◌, length};
ghost use Rattle.prog_text.specs.Text.{decimal_digits};

// Lent bytes that are written one behind the other, as far as there is room. `at` is the offset behind what was written.
#[derive(Drop)]
pub struct Writer<'a> {
    pub out: &'a mut [u8],
    pub at: usize,
    ghost within: { at ≤ length out.now },
}

impl<'a> Writer<'a> {
    ghost use Rattle.prog_text.specs.Writes.{Writes};

    // Begins at the start of the bytes.
    pub fn new(out: &'a mut [u8]) -> Writer<'a>
        ensures lent { result.out.ghost_name ≡ out.entry.ghost_name }
        ensures bytes { result.out.now ≡ out.old }
        ensures start { result.at ≡ 0 }
    {
        Writer { out, at: 0 }
    }

    // A text.
    pub fn put(&mut self, text: &[u8])
        ensures lent { self.new.out.ghost_name ≡ self.old.out.ghost_name }
        ensures written { Writes text.now self.old self.new }
    {
        let at = self.at;
        let n = text.len().min(self.out.len() - at);
        self.out[at..at + n].copy_from_slice(&text[..n]);
        self.at = at + n;
    }

    // A number in decimal digits.
    pub fn put_number(&mut self, n: usize)
        ensures lent { self.new.out.ghost_name ≡ self.old.out.ghost_name }
        ensures written { Writes (decimal_digits n) self.old self.new }
    {
        if 10 <= n {
            self.put_number(n / 10);
        }
        self.put(&[b'0' + (n % 10) as u8]);
    }
}
