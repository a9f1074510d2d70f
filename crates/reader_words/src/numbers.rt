// Small numbers, and how 0 and other numbers are read.
ghost use Rattle.std.specs.Prelude.{◌≡◌};
ghost use Rattle.reader_words.specs.Numbers.{flag_of, bit_of, role_of};

use opening::Role;

// These are no From: they are the numbers of the C interface and of the words, and `bool`, `u64` and `Role` are not of
// this crate. `role_of` and `side_of` (answers) are alike in shape alone.
pub fn flag_of(n: u64) -> bool
    ensures { result ≡ flag_of n }
{
    n != 0
}

pub fn bit_of(flag: bool) -> u64
    ensures { result ≡ bit_of flag }
{
    u64::from(flag)
}

pub fn role_of(n: u64) -> Role
    ensures { result ≡ role_of n }
{
    if n == 0 {
        return Role::Endpoint;
    }
    Role::Intermediary
}
