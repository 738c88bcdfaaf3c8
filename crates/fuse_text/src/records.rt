//! The fields of each record, each field's name once.

ghost use Rattle.std.specs.Prelude.{◌≡◌, ◌++◌, OnOk};
ghost use Rattle.plain_text.specs.Fronts.{Begins};
ghost use Rattle.fuse_text.specs.RecordText.{getattr_in_text, setattr_in_text, open_in_text, read_in_text, write_in_text, release_in_text, fsync_in_text, flush_in_text, init_in_text, create_in_text, forget_one_text, fallocate_in_text, setup_in_text, remove_one_text, attr_rec_text, attr_out_text, entry_out_text, open_out_text, write_out_text, init_out_text};

use crate::fields::{put_field, put_fields};
use fuse_wire::{
    AttrOut, AttrRec, CreateIn, EntryOut, FallocateIn, FlushIn, ForgetOne, FsyncIn, GetattrIn,
    InitIn, InitOut, OpenIn, OpenOut, ReadIn, ReleaseIn, RemoveOne, SetattrIn, SetupIn, WriteIn,
    WriteOut,
};
use plain_file::Memory;

/// Appends the fields of GETATTR's body.
#[tactic(auto, unfolding(crate::specs::RecordText::getattr_in_text, fuse_wire::specs::Attributes::getattr_in))]
pub(crate) fn put_getattr_in(out: &mut Vec<u8>, r: &GetattrIn) -> Result<(), Memory>
    ensures text { OnOk result (out.new.items ≡ out.old.items ++ getattr_in_text r.now) }
    ensures front { Begins out.old.items out.new.items }
{
    put_fields!(out, r; getattr_flags, fh)
}

/// Appends the fields of SETATTR's body.
#[tactic(auto, unfolding(crate::specs::RecordText::setattr_in_text, fuse_wire::specs::Attributes::setattr_in))]
pub(crate) fn put_setattr_in(out: &mut Vec<u8>, r: &SetattrIn) -> Result<(), Memory>
    ensures text { OnOk result (out.new.items ≡ out.old.items ++ setattr_in_text r.now) }
    ensures front { Begins out.old.items out.new.items }
{
    put_fields!(
        out, r;
        valid, fh, size, lock_owner, atime, mtime, ctime, atimensec, mtimensec, ctimensec, mode,
        uid, gid,
    )
}

/// Appends the fields of OPEN's and OPENDIR's body.
#[tactic(auto, unfolding(crate::specs::RecordText::open_in_text, fuse_wire::specs::Opens::open_in))]
pub(crate) fn put_open_in(out: &mut Vec<u8>, r: &OpenIn) -> Result<(), Memory>
    ensures text { OnOk result (out.new.items ≡ out.old.items ++ open_in_text r.now) }
    ensures front { Begins out.old.items out.new.items }
{
    put_fields!(out, r; flags, open_flags)
}

/// Appends the fields of READ's and READDIR's body.
#[tactic(auto, unfolding(crate::specs::RecordText::read_in_text, fuse_wire::specs::Records::read_in))]
pub(crate) fn put_read_in(out: &mut Vec<u8>, r: &ReadIn) -> Result<(), Memory>
    ensures text { OnOk result (out.new.items ≡ out.old.items ++ read_in_text r.now) }
    ensures front { Begins out.old.items out.new.items }
{
    put_fields!(out, r; fh, offset, size, read_flags, lock_owner, flags)
}

/// Appends the fields of the front of WRITE's body.
#[tactic(auto, unfolding(crate::specs::RecordText::write_in_text, fuse_wire::specs::Records::write_in))]
pub(crate) fn put_write_in(out: &mut Vec<u8>, r: &WriteIn) -> Result<(), Memory>
    ensures text { OnOk result (out.new.items ≡ out.old.items ++ write_in_text r.now) }
    ensures front { Begins out.old.items out.new.items }
{
    put_fields!(out, r; fh, offset, size, write_flags, lock_owner, flags)
}

/// Appends the fields of RELEASE's and RELEASEDIR's body.
#[tactic(auto, unfolding(crate::specs::RecordText::release_in_text, fuse_wire::specs::Opens::release_in))]
pub(crate) fn put_release_in(out: &mut Vec<u8>, r: &ReleaseIn) -> Result<(), Memory>
    ensures text { OnOk result (out.new.items ≡ out.old.items ++ release_in_text r.now) }
    ensures front { Begins out.old.items out.new.items }
{
    put_fields!(out, r; fh, flags, release_flags, lock_owner)
}

/// Appends the fields of FSYNC's body.
#[tactic(auto, unfolding(crate::specs::RecordText::fsync_in_text, fuse_wire::specs::Opens::fsync_in))]
pub(crate) fn put_fsync_in(out: &mut Vec<u8>, r: &FsyncIn) -> Result<(), Memory>
    ensures text { OnOk result (out.new.items ≡ out.old.items ++ fsync_in_text r.now) }
    ensures front { Begins out.old.items out.new.items }
{
    put_fields!(out, r; fh, fsync_flags)
}

/// Appends the fields of FLUSH's body.
#[tactic(auto, unfolding(crate::specs::RecordText::flush_in_text, fuse_wire::specs::Opens::flush_in))]
pub(crate) fn put_flush_in(out: &mut Vec<u8>, r: &FlushIn) -> Result<(), Memory>
    ensures text { OnOk result (out.new.items ≡ out.old.items ++ flush_in_text r.now) }
    ensures front { Begins out.old.items out.new.items }
{
    put_fields!(out, r; fh, lock_owner)
}

/// Appends the fields of INIT's body, in both forms.
#[tactic(auto, unfolding(crate::specs::RecordText::init_in_text, fuse_wire::specs::Inits::init_in))]
pub(crate) fn put_init_in(out: &mut Vec<u8>, r: &InitIn) -> Result<(), Memory>
    ensures text { OnOk result (out.new.items ≡ out.old.items ++ init_in_text r.now) }
    ensures front { Begins out.old.items out.new.items }
{
    put_fields!(out, r; major, minor, max_readahead, flags)?;
    if let Some(flags2) = r.flags2 {
        put_field(out, "flags2", u64::from(flags2))?;
    }
    Ok(())
}

/// Appends the fields of the front of CREATE's body.
#[tactic(auto, unfolding(crate::specs::RecordText::create_in_text, fuse_wire::specs::Opens::create_in))]
pub(crate) fn put_create_in(out: &mut Vec<u8>, r: &CreateIn) -> Result<(), Memory>
    ensures text { OnOk result (out.new.items ≡ out.old.items ++ create_in_text r.now) }
    ensures front { Begins out.old.items out.new.items }
{
    put_fields!(out, r; flags, mode, umask, open_flags)
}

/// Appends the fields of a pair of BATCH_FORGET.
#[tactic(auto, unfolding(crate::specs::RecordText::forget_one_text, fuse_wire::specs::Forgets::forget_one))]
pub(crate) fn put_forget_one(out: &mut Vec<u8>, r: &ForgetOne) -> Result<(), Memory>
    ensures text { OnOk result (out.new.items ≡ out.old.items ++ forget_one_text r.now) }
    ensures front { Begins out.old.items out.new.items }
{
    put_fields!(out, r; nodeid, nlookup)
}

/// Appends the fields of FALLOCATE's body.
#[tactic(auto, unfolding(crate::specs::RecordText::fallocate_in_text, fuse_wire::specs::Opens::fallocate_in))]
pub(crate) fn put_fallocate_in(out: &mut Vec<u8>, r: &FallocateIn) -> Result<(), Memory>
    ensures text { OnOk result (out.new.items ≡ out.old.items ++ fallocate_in_text r.now) }
    ensures front { Begins out.old.items out.new.items }
{
    put_fields!(out, r; fh, offset, length, mode)
}

/// Appends the fields of SETUPMAPPING's body.
#[tactic(auto, unfolding(crate::specs::RecordText::setup_in_text, fuse_wire::specs::Mappings::setup_in))]
pub(crate) fn put_setup_in(out: &mut Vec<u8>, r: &SetupIn) -> Result<(), Memory>
    ensures text { OnOk result (out.new.items ≡ out.old.items ++ setup_in_text r.now) }
    ensures front { Begins out.old.items out.new.items }
{
    put_fields!(out, r; fh, foffset, len, flags, moffset)
}

/// Appends the fields of an interval of REMOVEMAPPING.
#[tactic(auto, unfolding(crate::specs::RecordText::remove_one_text, fuse_wire::specs::Mappings::remove_one))]
pub(crate) fn put_remove_one(out: &mut Vec<u8>, r: &RemoveOne) -> Result<(), Memory>
    ensures text { OnOk result (out.new.items ≡ out.old.items ++ remove_one_text r.now) }
    ensures front { Begins out.old.items out.new.items }
{
    put_fields!(out, r; moffset, len)
}

/// Appends the fields of the attributes of a node.
#[tactic(auto, unfolding(crate::specs::RecordText::attr_rec_text, fuse_wire::specs::Attributes::attr_rec))]
pub(crate) fn put_attr_rec(out: &mut Vec<u8>, r: &AttrRec) -> Result<(), Memory>
    ensures text { OnOk result (out.new.items ≡ out.old.items ++ attr_rec_text r.now) }
    ensures front { Begins out.old.items out.new.items }
{
    put_fields!(
        out, r;
        ino, size, blocks, atime, mtime, ctime, atimensec, mtimensec, ctimensec, mode, nlink,
        uid, gid, rdev, blksize, flags,
    )
}

/// Appends the fields of the reply of GETATTR and SETATTR.
#[tactic(auto, unfolding(crate::specs::RecordText::attr_out_text, crate::specs::RecordText::attr_rec_text, fuse_wire::specs::Attributes::attr_out))]
pub(crate) fn put_attr_out(out: &mut Vec<u8>, r: &AttrOut) -> Result<(), Memory>
    ensures text { OnOk result (out.new.items ≡ out.old.items ++ attr_out_text r.now) }
    ensures front { Begins out.old.items out.new.items }
{
    put_fields!(out, r; attr_valid, attr_valid_nsec)?;
    put_attr_rec(out, &r.attr)?;
    Ok(())
}

/// Appends the fields of the reply of LOOKUP, and the front of CREATE's.
#[tactic(auto, unfolding(crate::specs::RecordText::entry_out_text, crate::specs::RecordText::attr_rec_text, fuse_wire::specs::Attributes::entry_out))]
pub(crate) fn put_entry_out(out: &mut Vec<u8>, r: &EntryOut) -> Result<(), Memory>
    ensures text { OnOk result (out.new.items ≡ out.old.items ++ entry_out_text r.now) }
    ensures front { Begins out.old.items out.new.items }
{
    put_fields!(
        out, r;
        nodeid, generation, entry_valid, attr_valid, entry_valid_nsec, attr_valid_nsec,
    )?;
    put_attr_rec(out, &r.attr)?;
    Ok(())
}

/// Appends the fields of the reply of OPEN and OPENDIR, and the end of CREATE's.
#[tactic(auto, unfolding(crate::specs::RecordText::open_out_text, fuse_wire::specs::Opens::open_out))]
pub(crate) fn put_open_out(out: &mut Vec<u8>, r: &OpenOut) -> Result<(), Memory>
    ensures text { OnOk result (out.new.items ≡ out.old.items ++ open_out_text r.now) }
    ensures front { Begins out.old.items out.new.items }
{
    put_fields!(out, r; fh, open_flags)
}

/// Appends the fields of the reply of WRITE.
#[tactic(auto, unfolding(crate::specs::RecordText::write_out_text, fuse_wire::specs::Records::write_out))]
pub(crate) fn put_write_out(out: &mut Vec<u8>, r: &WriteOut) -> Result<(), Memory>
    ensures text { OnOk result (out.new.items ≡ out.old.items ++ write_out_text r.now) }
    ensures front { Begins out.old.items out.new.items }
{
    put_fields!(out, r; size)
}

/// Appends the fields of the reply of INIT.
#[tactic(auto, unfolding(crate::specs::RecordText::init_out_text, fuse_wire::specs::Inits::init_out))]
pub(crate) fn put_init_out(out: &mut Vec<u8>, r: &InitOut) -> Result<(), Memory>
    ensures text { OnOk result (out.new.items ≡ out.old.items ++ init_out_text r.now) }
    ensures front { Begins out.old.items out.new.items }
{
    put_fields!(
        out, r;
        major, minor, max_readahead, flags, max_background, congestion_threshold, max_write,
        time_gran, max_pages, map_alignment, flags2,
    )
}
