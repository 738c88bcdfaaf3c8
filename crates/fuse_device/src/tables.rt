ghost use Rattle.std.specs.Prelude.{◌≡◌, map, filter, not, ◌==◌};
ghost use Rattle.fuse_device.specs.State.{has_name, unlooked};

use plain_file::Name;

/// What an open handle is of.
#[derive(Clone, Copy, Debug, PartialEq, Eq)]
pub enum Kind {
    /// A file.
    File,
    /// The directory.
    Dir,
}

/// A file that was made. A file is never unmade.
#[derive(Debug, Drop)]
pub struct MadeFile {
    /// Its name in the directory, until it is taken away.
    pub name: Option<Name>,
    /// How many lookups of it weren't given back.
    pub lookups: u64,
}

/// An open handle.
#[derive(Clone, Copy, Debug, PartialEq, Eq)]
pub struct Opened {
    /// Its number.
    pub fh: u64,
    /// The node that it is of.
    pub node: u64,
    /// What the node was opened as.
    pub kind: Kind,
}

/// Whether a file has this name.
pub fn has_name(file: &MadeFile, name: &[u8]) -> bool
    ensures { result ≡ has_name name.now file.now }
{
    match &file.name {
        None => false,
        Some(other) => name == other.as_slice(),
    }
}

/// Takes the handle of this number away, if it is open.
pub fn close_in(opened: &mut Vec<Opened>, fh: u64)
    ensures { opened.new.items ≡ filter (λ o. not (o.fh == fh)) opened.old.items }
{
    opened.retain(|o| o.fh != fh);
}

/// Gives all lookups of all files back.
#[tactic(auto, using(crate::proofs::Unlooks::one_more))]
pub fn unlook(made: &mut Vec<MadeFile>)
    ensures { made.new.items ≡ map unlooked made.old.items }
{
    for i in 0..made.len() {
        made[i].lookups = 0;
    }
}
