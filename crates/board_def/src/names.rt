//! Names of domains.
ghost use Rattle.std.specs.Prelude.{◌≡◌, true};
ghost use Rattle.board_def.specs.Names.{is_name, name_of, name_bytes};

/// The most bytes of a name.
pub const LONGEST_NAME: usize = 16;

/// The name of a domain: a letter a to z and up to 15 letters, digits or `_` (`name` of `struct
/// irq_domain`, `include/linux/irqdomain.h`). The bytes after it are zeros, which no name has.
#[derive(Clone, Copy, PartialEq, Eq, Hash)]
pub struct Name {
    padded: [u8; LONGEST_NAME],
}

impl Name {
    /// The name of these bytes.
    pub fn new(bytes: &[u8]) -> Name
        requires { is_name bytes.now ≡ true }
        ensures { result ≡ name_of bytes.now }
    {
        let mut padded = [0; LONGEST_NAME];
        padded[..bytes.len()].copy_from_slice(bytes);
        Name { padded }
    }

    /// Its 1 to 16 bytes.
    pub fn bytes(&self) -> &[u8]
        ensures { result.now ≡ name_bytes self.now }
    {
        let mut len = 0;
        while len < LONGEST_NAME && self.padded[len] != 0 {
            len += 1;
        }
        &self.padded[..len]
    }
}
