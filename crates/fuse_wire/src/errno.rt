ghost use Rattle.std.specs.Prelude.{◌≡◌, ◌≤ℤ◌, pos, Some, IfSome};
ghost use Rattle.fuse_wire.specs.Errno.{errno_number, errors};
ghost use Rattle.fuse_wire.specs.declared.errno.Errno.{Errno};

/// An error that the daemon answers, by its name and number of Linux
/// (uapi `asm-generic/errno-base.h` and `asm-generic/errno.h`).
///
/// A reply carries it as the negative number, in the field `error` of [`OutHeader`](crate::OutHeader).
#[derive(Clone, Copy, Debug, PartialEq, Eq)]
pub enum Errno {
    /// No such file or node.
    ENOENT = 2,
    /// Input or output error.
    EIO = 5,
    /// No such open handle.
    EBADF = 9,
    /// The file or the mapping is in use.
    EBUSY = 16,
    /// The file is there already.
    EEXIST = 17,
    /// Not a directory.
    ENOTDIR = 20,
    /// A directory.
    EISDIR = 21,
    /// Invalid argument.
    EINVAL = 22,
    /// Too many open handles.
    EMFILE = 24,
    /// The file would be too large.
    EFBIG = 27,
    /// No room for another file.
    ENOSPC = 28,
    /// No such operation.
    ENOSYS = 38,
    /// The protocol's version isn't spoken.
    EPROTO = 71,
    /// The operation isn't supported.
    EOPNOTSUPP = 95,
}

impl Errno {
    /// The number of the error, from 1 to 4095.
    #[tactic(auto, unfolding(crate::specs::Errno::errno_number))]
    pub fn number(self) -> i32
        ensures number { result ≡ pos (errno_number self) }
        ensures range { (pos 1 ≤ℤ result) × (result ≤ℤ pos 4095) }
    {
        self as i32
    }

    /// The error of a number: `None` exactly for a number that no error here has.
    pub fn of(number: i32) -> Option<Errno>
        ensures found { IfSome result (λ e. number ≡ pos (errno_number e)) }
        ensures only { (e : Errno) → number ≡ pos (errno_number e) → result ≡ Some e }
    {
        let errors = every();
        errors
            .iter()
            .find(|errno| errno.number() == number)
            .copied()
    }
}

fn every() -> [Errno; 14]
    ensures { result ≡ errors }
{
    [
        Errno::ENOENT,
        Errno::EIO,
        Errno::EBADF,
        Errno::EBUSY,
        Errno::EEXIST,
        Errno::ENOTDIR,
        Errno::EISDIR,
        Errno::EINVAL,
        Errno::EMFILE,
        Errno::EFBIG,
        Errno::ENOSPC,
        Errno::ENOSYS,
        Errno::EPROTO,
        Errno::EOPNOTSUPP,
    ]
}
