//! The pairs of a long list, bucket by bucket, so that only one bucket at a time has to fit the processor's caches.

ghost use Rattle.std.specs.Prelude.{◌≡◌, ◌<◌, [], All, IfOk, OnOk, length, map};
ghost use Rattle.status_index.specs.BlobId.{id_bytes};
ghost use Rattle.status_index.specs.Orders.{kind_rank};
ghost use Rattle.status_rewrites.specs.Buckets.{bucket_count, bucket_number, leading_bits, AreBuckets, IsAppendedJoin};
ghost use Rattle.status_rewrites.specs.Joins.{AreByKey, HasRows, IsJoin, side_of};
ghost use Rattle.status_rewrites.specs.SeenItems.{changed_of};
ghost use Rattle.status_rewrites.specs.declared.tracker.ChangeKind.TheVariants.{Deletion, Addition};

use crate::seen::{Seen, join, may_stand, mode_number, put_in_key_order};
use crate::tracker::{ChangeKind, Pair};
use status_index::{HashKind, ObjectId};
use std::alloc::{AllocError, Global};

/// The number of buckets: one for each type of node, kind of id and value of an id's first twelve bits.
const BUCKETS: usize = 3 * 2 * 4096;

fn kind_rank(kind: HashKind) -> usize
    ensures { result ≡ kind_rank kind }
{
    match kind {
        HashKind::Sha1 => 0,
        HashKind::Sha256 => 1,
    }
}

/// Returns the first twelve bits of an id.
fn leading_bits(id: &ObjectId) -> usize
    ensures { result ≡ leading_bits (id_bytes id.now) }
{
    let (first, second) = match id {
        ObjectId::Sha1(digest) => (digest[0], digest[1]),
        ObjectId::Sha256(digest) => (digest[0], digest[1]),
    };
    usize::from(first) * 16 + usize::from(second / 16)
}

/// Returns the number of a change's bucket. It never falls as type and id ascend.
#[tactic(auto, unfolding(crate::specs::Buckets::bucket_number))]
fn bucket_number(seen: &Seen<'_>) -> usize
    ensures value { result ≡ bucket_number (changed_of seen.now) }
    ensures below { result < bucket_count }
{
    let kinds = usize::from(mode_number(seen.mode)) * 2 + kind_rank(seen.id.kind());
    kinds * 4096 + leading_bits(&seen.id)
}

fn empty_lists<T: Drop>(alloc: Global, count: usize) -> Result<Vec<Vec<T>>, AllocError>
    ensures count { IfOk result (λ lists. length lists.items ≡ count) }
    ensures empty { IfOk result (λ lists. All (λ list. list.items ≡ []) lists.items) }
{
    let mut lists = Vec::with_capacity(alloc, count)?;
    for _ in 0..count {
        lists.push(Vec::new(alloc))?;
    }
    Ok(lists)
}

/// Deals the changes of one side that may be in a pair out to the buckets, in the list's order.
fn deal<'a>(
    alloc: Global,
    seen: &'a [Seen<'a>],
    side: ChangeKind,
    track_empty: bool,
) -> Result<Vec<Vec<&'a Seen<'a>>>, AllocError>
    ensures { IfOk result (λ buckets. AreBuckets (side_of side track_empty seen.now) buckets.items) }
{
    let mut buckets = empty_lists(alloc, BUCKETS)?;
    for item in seen {
        if may_stand(item, side, track_empty) {
            buckets[bucket_number(item)].push(item)?;
        }
    }
    Ok(buckets)
}

/// Returns the changes that a bucket refers to, next to each other in memory.
fn copied<'a>(alloc: Global, bucket: &[&'a Seen<'a>]) -> Result<Vec<Seen<'a>>, AllocError>
    ensures { IfOk result (λ part. part.items ≡ map (λ s. s.now) bucket.now) }
{
    let mut part = Vec::with_capacity(alloc, bucket.len())?;
    for item in bucket {
        part.push(**item)?;
    }
    Ok(part)
}

/// Returns the changes that a bucket refers to, by type and id, and for equal ones in the list's order.
fn in_order<'a>(alloc: Global, bucket: &[&'a Seen<'a>]) -> Result<Vec<Seen<'a>>, AllocError>
    ensures rows { IfOk result (λ part. HasRows (map (λ s. s.now) bucket.now) part.items) }
    ensures ascends { IfOk result (λ part. AreByKey part.items) }
{
    let mut part = copied(alloc, bucket)?;
    put_in_key_order(&mut part)?;
    Ok(part)
}

/// Appends the pairs of two buckets.
fn append_pairs<'a>(
    alloc: Global,
    pairs: &mut Vec<Pair>,
    gone: &[&'a Seen<'a>],
    came: &[&'a Seen<'a>],
) -> Result<(), AllocError>
    ensures { OnOk result (IsAppendedJoin (map (λ s. s.now) gone.now) (map (λ s. s.now) came.now) pairs.old.items pairs.new.items) }
{
    let gone = in_order(alloc, gone)?;
    let came = in_order(alloc, came)?;
    let mut more = join(alloc, &gone, &came)?;
    pairs.append(&mut more)
}

/// Returns the pairs of both sides, bucket by bucket.
pub(crate) fn join_buckets<'a>(
    alloc: Global,
    seen: &'a [Seen<'a>],
    track_empty: bool,
) -> Result<Vec<Pair>, AllocError>
    ensures { IfOk result (λ pairs. IsJoin (side_of Deletion track_empty seen.now) (side_of Addition track_empty seen.now) pairs.items) }
{
    let gone = deal(alloc, seen, ChangeKind::Deletion, track_empty)?;
    let came = deal(alloc, seen, ChangeKind::Addition, track_empty)?;
    let mut pairs = Vec::new(alloc);
    for number in 0..BUCKETS {
        append_pairs(alloc, &mut pairs, &gone[number], &came[number])?;
    }
    Ok(pairs)
}
