//! The nacks of a row's scopes.

ghost use Rattle.std.specs.Prelude.{◌≤◌, length};

/// The number of the nack of each scope of a row. A row has at most four scopes, and the first ones have
/// the nacks.
#[derive(Clone, Copy)]
pub(crate) struct Nacks {
    pub(crate) numbers: [Option<u8>; 4],
}

impl Nacks {
    /// Those of a row with no scopes.
    pub(crate) fn none() -> Nacks {
        Nacks { numbers: [None; 4] }
    }

    /// These, scope by scope.
    pub(crate) fn of(nacks: &[u8]) -> Nacks
        requires { length nacks.now ≤ 4 }
    {
        let mut numbers = [None; 4];
        for scope in 0..nacks.len() {
            numbers[scope] = Some(nacks[scope]);
        }
        Nacks { numbers }
    }

    pub(crate) fn is_empty(&self) -> bool {
        self.numbers[0].is_none()
    }
}
