// Random numbers, each made from the one before.
ghost use Rattle.std.specs.Prelude.{◌≡◌, ◌<◌, ◌≤◌, length};

#[derive(Clone, Copy)]
pub struct Random(pub u64);

impl Random {
    pub fn next(self) -> Random
        ensures { result.0 < 2147483648 }
    {
        Random((self.0 % 2147483648 * 1103515245 + 12345) % 2147483648)
    }

    // A number below n.
    pub fn below(self, n: usize) -> usize
        requires { (0 < n) × (n ≤ 1024) }
        ensures { result < n }
    {
        (self.0 / 65536 % n as u64) as usize
    }
}

// Codes, of which one in five or so is unknown.
pub fn points(seed: u64) -> [u8; 1024]
    ensures { length result ≡ 1024 }
{
    let mut points = [0u8; 1024];
    let mut random = Random(seed);
    for point in points.iter_mut() {
        random = random.next();
        *point = ((random.below(5) + 1) / 2) as u8;
    }
    points
}

pub fn facts(seed: u64) -> [u32; 2048]
    ensures { length result ≡ 2048 }
{
    let mut facts = [0u32; 2048];
    let mut random = Random(seed);
    for fact in facts.iter_mut() {
        let high = random.next();
        random = high.next();
        *fact = (high.0 / 32768 * 65536 + random.0 / 32768) as u32;
    }
    facts
}
