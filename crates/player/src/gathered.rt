// Bytes that a program gathers, to write them in large pieces.
ghost use Rattle.std.specs.Prelude.{◌≡◌, ◌+◌, ◌≤◌, OnOk};

use std::io;

// A piece, and room behind it for what one call writes.
#[derive(Drop)]
pub struct Gathered {
    pub bytes: [u8; 36864],
    pub count: usize,
    ghost within: { count ≤ 36864 },
}

impl Gathered {
    pub fn new() -> Gathered
        ensures { result.count ≡ 0 }
    {
        Gathered {
            bytes: [0; 36864],
            count: 0,
        }
    }

    // Writes what is gathered.
    pub fn flush(&mut self, rt: &impl Print) -> io::Result<()>
        ensures { OnOk result (self.new.count ≡ 0) }
    {
        rt.write_all(&self.bytes[..self.count])?;
        self.count = 0;
        Ok(())
    }

    // Writes them where a piece is whole, so that there is room for what one call writes.
    pub fn make_room(&mut self, rt: &impl Print) -> io::Result<()>
        ensures { OnOk result (self.new.count ≤ 32768) }
    {
        if 32768 < self.count {
            self.flush(rt)?;
        }
        Ok(())
    }

    // Counts so many bytes that a call wrote behind them. No call writes more than 4,096.
    pub fn add(&mut self, bytes: usize)
        requires { self.old.count ≤ 32768 }
        ensures { bytes ≤ 4096 → self.new.count ≡ self.old.count + bytes }
    {
        if bytes <= 4096 {
            self.count += bytes;
        }
    }
}
