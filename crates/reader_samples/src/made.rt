// A chunk that is put together byte by byte, by value. What comes after the 640th byte is lost.
#[derive(Clone, Copy)]
pub struct Made {
    pub bytes: [u8; 640],
    pub len: usize,
}

impl Made {
    pub fn new() -> Self {
        Made {
            bytes: [0u8; 640],
            len: 0,
        }
    }

    pub fn with(self, byte: u8) -> Self {
        let at = self.len;
        if 640 <= at {
            return self;
        }
        let mut next = self;
        next.bytes[at] = byte;
        next.len = at + 1;
        next
    }

    // Without its last byte.
    pub fn cut(self) -> Self {
        let len = self.len;
        if len == 0 {
            return self;
        }
        let mut next = self;
        next.len = len - 1;
        next
    }

    // The bytes of a written-out chunk.
    pub fn of(bytes: &[u8]) -> Self {
        let mut made = Made::new();
        for i in 0..bytes.len() {
            made = made.with(bytes[i]);
        }
        made
    }

    // The same byte n times: stuffing, or an extension.
    pub fn fill(self, n: usize, byte: u8) -> Self {
        let mut made = self;
        for _ in 0..n {
            made = made.with(byte);
        }
        made
    }

    // A header with extension lengths h, e and s, for count ensembles.
    pub fn header(self, h: u8, e: u8, s: u8, count: u8) -> Self {
        let made = self.with(0x38 + h % 8).with(e % 8 * 32 + s % 8 * 4 + 3);
        made.with(0x01)
            .with(0x23)
            .fill((h % 8) as usize, 0xA1)
            .with(count)
    }

    // The fields of an ensemble with this second byte, that has so many services.
    fn fields(self, id: u8, second: u8, e: u8, services: u8) -> Self {
        self.with(id)
            .with(second)
            .with(0x5F)
            .fill((e % 8) as usize, 0xB2)
            .with(services)
    }

    // Those of an ensemble of version 0.
    pub fn ensemble(self, id: u8, e: u8, services: u8) -> Self {
        self.fields(id, 0xE0, e, services)
    }

    // Those of an unknown one, of a version from 1 to 31.
    pub fn trial(self, id: u8, e: u8, services: u8) -> Self {
        self.fields(id, 0xE1 + id % 31, e, services)
    }

    // Unknown ensembles without services, numbered from one number up to another.
    pub fn trials(self, from: u8, to: u8, e: u8) -> Self {
        let mut made = self;
        for id in from..to {
            made = made.trial(id, e, 0);
        }
        made
    }

    pub fn service(self, i: u8, s: u8) -> Self {
        self.with(0x10)
            .with(i)
            .with(0xE0 + i % 32)
            .fill((s % 8) as usize, 0xC3)
    }

    // So many services, numbered from 0x1000 on.
    pub fn services(self, s: u8, count: u8) -> Self {
        let mut made = self;
        for i in 0..count {
            made = made.service(i, s);
        }
        made
    }

    // Ensembles numbered from one number up to another, each with so many services.
    pub fn ensembles(self, from: u8, to: u8, e: u8, s: u8, services: u8) -> Self {
        let mut made = self;
        for id in from..to {
            made = made.ensemble(id, e, services).services(s, services);
        }
        made
    }
}
