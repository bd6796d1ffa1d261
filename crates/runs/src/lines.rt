// A line of cases, and the job that lines put together. Their arrays have a count beside them: nothing here has a heap. An
// `as` fits: the remainder is a byte.

// A line: its first letter, by which the file of cases tells what to do, and its numbers, from place 1 to `last`.
#[derive(Clone, Copy)]
pub struct Line {
    pub verb: u8,
    pub numbers: [u16; 128],
    pub last: usize,
}

#[derive(Clone, Copy)]
pub struct Draft {
    pub bytes: [u8; 256],
    pub car: usize,
    pub end: usize,
}

// The first n bytes, or all that there are.
pub fn begun(bytes: &[u8], n: usize) -> &[u8] {
    &bytes[..n.min(bytes.len())]
}

fn with_digit(number: u16, digit: u8) -> u16 {
    number.wrapping_mul(10).wrapping_add(u16::from(digit % 16))
}

impl Line {
    // A space begins a number, and a digit is put behind it.
    fn and(mut self, byte: u8) -> Line {
        let at = self.last;
        if 127 <= at {
            return self;
        }
        if byte == b' ' {
            self.last = at + 1;
            return self;
        }
        self.numbers[at] = with_digit(self.numbers[at], byte);
        self
    }
}

pub fn parse(text: &[u8]) -> Line {
    let mut line = Line {
        verb: *text.first().unwrap_or(&b'#'),
        numbers: [0u16; 128],
        last: 0,
    };
    for byte in text {
        line = line.and(*byte);
    }
    line
}

impl Draft {
    fn with_byte(mut self, byte: u8) -> Draft {
        let at = self.end;
        if 256 <= at {
            return self;
        }
        self.bytes[at] = byte;
        self.end = at + 1;
        self
    }

    fn with_group(self, number: u16) -> Draft {
        let mut job = self;
        let mut left = number;
        // It goes on while there are bits above the last seven: how many groups there are is found out by this.
        while 128 <= left {
            job = job.with_byte((128 + left % 128) as u8);
            left /= 128;
        }
        job.with_byte(left as u8)
    }

    // Byte by byte, or as groups.
    fn with_number(self, verb: u8, number: u16) -> Draft {
        if verb == b'b' {
            return self.with_byte((number % 256) as u8);
        }
        self.with_group(number)
    }

    // The line's numbers from where the car ends.
    pub fn with_rest(self, line: Line) -> Draft {
        let mut job = self;
        job.end = job.car;
        for number in &line.numbers[1..line.last.min(127) + 1] {
            job = job.with_number(line.verb, *number);
        }
        job
    }

    pub fn with_car(mut self, line: Line) -> Draft {
        self.car = 0;
        let mut job = self.with_rest(line);
        job.car = job.end;
        job
    }
}
