//! The tags of stamps, and which of them an observation may have.
ghost use Rattle.std.specs.Prelude.{◌≡◌};
ghost use Rattle.pie_record.specs.Kinds.{kind_of_byte, tag_of_byte, calls as specs_calls, allows as specs_allows, file_allows as specs_file_allows};
ghost use Rattle.pie_record.specs.Kinds.{call_allows as specs_call_allows, kind_byte, tag_byte, tag_of};

use crate::{DepKind, DepOn};
use pie_value::Stamp;

// The kinds of stamp, in the order of their tags.
#[derive(Clone, Copy)]
pub(crate) enum Tag {
    Absent,
    Present,
    Hash,
    Mark,
    Whole,
    Done,
}

pub(crate) fn known_kind(byte: u8) -> Option<DepKind>
    ensures { result ≡ kind_of_byte byte }
{
    match byte {
        1 => Some(DepKind::Exists),
        2 => Some(DepKind::ReadHash),
        3 => Some(DepKind::ReadMark),
        4 => Some(DepKind::Digest),
        5 => Some(DepKind::List),
        6 => Some(DepKind::Require),
        7 => Some(DepKind::RequireHash),
        8 => Some(DepKind::Run),
        _ => None,
    }
}

pub(crate) fn known_tag(byte: u8) -> Option<Tag>
    ensures { result ≡ tag_of_byte byte }
{
    match byte {
        0 => Some(Tag::Absent),
        1 => Some(Tag::Present),
        2 => Some(Tag::Hash),
        3 => Some(Tag::Mark),
        4 => Some(Tag::Whole),
        5 => Some(Tag::Done),
        _ => None,
    }
}

pub(crate) fn byte_of_kind(kind: DepKind) -> u8
    ensures { result ≡ kind_byte kind }
{
    match kind {
        DepKind::Exists => 1,
        DepKind::ReadHash => 2,
        DepKind::ReadMark => 3,
        DepKind::Digest => 4,
        DepKind::List => 5,
        DepKind::Require => 6,
        DepKind::RequireHash => 7,
        DepKind::Run => 8,
    }
}

pub(crate) fn byte_of_stamp(stamp: &Stamp) -> u8
    ensures { result ≡ tag_byte (tag_of stamp.now) }
{
    match stamp {
        Stamp::Absent => 0,
        Stamp::Present => 1,
        Stamp::Hash(_) => 2,
        Stamp::Mark(_) => 3,
        Stamp::Whole(_) => 4,
        Stamp::Done => 5,
    }
}

// Whether an observation of this kind is of a task.
pub(crate) fn calls(kind: DepKind) -> bool
    ensures { result ≡ specs_calls kind }
{
    match kind {
        DepKind::Require | DepKind::RequireHash | DepKind::Run => true,
        _ => false,
    }
}

pub(crate) fn allows(kind: DepKind, what: &DepOn, tag: Tag) -> bool
    ensures { result ≡ specs_allows kind what.now tag }
{
    match what {
        DepOn::File(path) => file_allows(kind, path.under_out(), tag),
        DepOn::Called(_) => call_allows(kind, tag),
    }
}

fn file_allows(kind: DepKind, out: bool, tag: Tag) -> bool
    ensures { result ≡ specs_file_allows kind out tag }
{
    match tag {
        Tag::Absent => matches!(
            kind,
            DepKind::Exists | DepKind::ReadHash | DepKind::ReadMark | DepKind::Digest
        ),
        Tag::Present => matches!(kind, DepKind::Exists),
        Tag::Hash => match kind {
            DepKind::ReadHash | DepKind::Digest | DepKind::List => true,
            DepKind::ReadMark => out,
            _ => false,
        },
        Tag::Mark => matches!(kind, DepKind::ReadMark) && !out,
        Tag::Whole | Tag::Done => false,
    }
}

fn call_allows(kind: DepKind, tag: Tag) -> bool
    ensures { result ≡ specs_call_allows kind tag }
{
    match tag {
        Tag::Hash => matches!(kind, DepKind::RequireHash),
        Tag::Whole => matches!(kind, DepKind::Require),
        Tag::Done => matches!(kind, DepKind::Run),
        Tag::Absent | Tag::Present | Tag::Mark => false,
    }
}
