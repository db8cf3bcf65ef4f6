// A listing that is put together byte by byte, by value. What comes after the 2560th byte is lost.
const MOST: usize = 2560;

#[derive(Clone, Copy)]
pub struct Made {
    pub bytes: [u8; 2560],
    pub len: usize,
}

// The sum of two bytes, from 0 on again past 255.
fn round(a: u8, b: u8) -> u8 {
    ((a as u32 + b as u32) % 256) as u8
}

impl Made {
    pub fn new() -> Self {
        Made {
            bytes: [0u8; MOST],
            len: 0,
        }
    }

    pub fn with(self, byte: u8) -> Self {
        let at = self.len;
        if MOST <= at {
            return self;
        }
        let mut next = self;
        next.bytes[at] = byte;
        next.len = at + 1;
        next
    }

    // With more bytes after it.
    pub fn and(self, bytes: &[u8]) -> Self {
        let mut made = self;
        for i in 0..bytes.len() {
            made = made.with(bytes[i]);
        }
        made
    }

    // The bytes of a written-out listing.
    pub fn of(bytes: &[u8]) -> Self {
        Made::new().and(bytes)
    }

    // With another byte at a place.
    pub fn but(self, at: usize, byte: u8) -> Self {
        if MOST <= at {
            return self;
        }
        let mut next = self;
        next.bytes[at] = byte;
        next
    }

    // With another mark at a place.
    pub fn mark(self, at: usize, first: u8, second: u8) -> Self {
        if MOST <= at {
            return self;
        }
        self.but(at, first).but(at + 1, second)
    }

    // With a byte raised by so much.
    pub fn raised(self, at: usize, by: u8) -> Self {
        if MOST <= at {
            return self;
        }
        let byte = self.bytes[at];
        self.but(at, round(byte, by))
    }

    // Its first bytes.
    pub fn cut(self, len: usize) -> Self {
        let mut next = self;
        next.len = len;
        next
    }

    // With another last byte.
    pub fn ending(self, byte: u8) -> Self {
        let len = self.len;
        if len == 0 {
            return self;
        }
        self.but(len - 1, byte)
    }

    pub fn header(self, count: u8) -> Self {
        self.and(b"TS\xC7\x59").with(count)
    }

    // An ensemble that says it has so many services.
    pub fn ensemble(self, id: u8, services: u8) -> Self {
        self.and(b"EN")
            .with(id)
            .with((id % 8 * 3 + 4) % 8)
            .with((id % 32 * 7 + 3) % 32)
            .with(services)
    }

    // A service: its fields go round with different periods.
    pub fn service(self, ensemble: u8, i: u8) -> Self {
        self.and(b"SV")
            .with(ensemble)
            .with(127 - ensemble % 128)
            .with(i)
            .with(i % 4)
            .with((i % 7 + 3) % 4)
            .with(i % 3 % 2)
    }

    // An ensemble with its services.
    pub fn whole(self, id: u8, services: u8) -> Self {
        let mut made = self.ensemble(id, services);
        for i in 0..services {
            made = made.service(id, i);
        }
        made
    }

    // Ensembles numbered from one number up to another, each with so many services.
    pub fn ensembles(self, from: u8, to: u8, services: u8) -> Self {
        let mut made = self;
        for id in from..to {
            made = made.whole(id, services);
        }
        made
    }
}
