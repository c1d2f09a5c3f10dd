use std::time::Duration;

/// How long this many packets took.
#[derive(Clone, Copy)]
pub struct Times {
    /// Sealing them.
    pub seal: Duration,
    /// Opening them.
    pub open: Duration,
    /// Their HMAC under one key.
    pub kept: Duration,
    /// Their HMAC under a key made anew for each.
    pub anew: Duration,
}

impl Times {
    /// No times are longer.
    pub fn longest() -> Times {
        Times {
            seal: Duration::MAX,
            open: Duration::MAX,
            kept: Duration::MAX,
            anew: Duration::MAX,
        }
    }

    /// The shorter time of each.
    pub fn faster(self, other: Times) -> Times {
        Times {
            seal: self.seal.min(other.seal),
            open: self.open.min(other.open),
            kept: self.kept.min(other.kept),
            anew: self.anew.min(other.anew),
        }
    }
}
