// Text put together in a lent line; what finds no room is left out, and no line is that long.
ghost use Rattle.std.specs.Prelude.{◌≤◌, length};

const DIGITS: &[u8; 16] = b"0123456789abcdef";

#[derive(Drop)]
pub struct Line<'a> {
    bytes: &'a mut [u8],
    len: usize,
    ghost within: { len ≤ length bytes.now },
}

impl<'a> Line<'a> {
    pub fn new(bytes: &'a mut [u8]) -> Self {
        Line { bytes, len: 0 }
    }

    // What is put so far.
    pub fn as_bytes(&self) -> &[u8] {
        &self.bytes[..self.len]
    }

    pub fn byte(&mut self, b: u8) {
        if self.len < self.bytes.len() {
            self.bytes[self.len] = b;
            self.len += 1;
        }
    }

    pub fn text(&mut self, text: &[u8]) {
        for b in text {
            self.byte(*b);
        }
    }

    fn decimal(&mut self, n: u64) {
        let mut digits = [0; 20];
        let k = io::decimal(n, &mut digits);
        self.text(&digits[..k]);
    }

    // A space, and the number's decimal digits.
    pub fn number(&mut self, n: u64) {
        self.byte(b' ');
        self.decimal(n);
    }

    pub fn signed(&mut self, n: i64) {
        self.byte(b' ');
        if n < 0 {
            self.byte(b'-');
        }
        self.decimal(n.unsigned_abs());
    }

    // At least so many hexadecimal digits.
    fn digits(&mut self, n: u64, width: usize) {
        let mut digits = [0; 16];
        let k = io::hex(n, width, &mut digits);
        self.text(&digits[..k]);
    }

    // A space, and such digits.
    pub fn hex(&mut self, n: u64, width: usize) {
        self.byte(b' ');
        self.digits(n, width);
    }

    // Two digits for each byte, `-` for none.
    pub fn bytes(&mut self, bytes: &[u8]) {
        if bytes.is_empty() {
            self.byte(b'-');
        }
        for b in bytes {
            self.byte(DIGITS[usize::from(*b >> 4)]);
            self.byte(DIGITS[usize::from(*b & 15)]);
        }
    }

    // Sixteen digits for each word, `-` for none.
    pub fn words(&mut self, words: &[u64]) {
        if words.is_empty() {
            self.byte(b'-');
        }
        for w in words {
            self.digits(*w, 16);
        }
    }

    // A space and the decimal digits for each number.
    pub fn numbers(&mut self, numbers: &[u32]) {
        for n in numbers {
            self.number(u64::from(*n));
        }
    }
}
