//! Where the areas of a disk are, and what a waiting batch takes of them.
ghost use Rattle.std.specs.Prelude.{◌≡◌, ◌≤◌, ◌<◌, ◌+◌, ◌^◌};
ghost use Rattle.qs_log_batch.specs.Batch.{batch_length};
ghost use Rattle.qs_log.specs.Image.{half, area_start};
ghost use Rattle.qs_log.specs.Log.{waiting_length};

use qs_log_batch::Batch;

/// How many bytes both slots take.
const SLOTS: u64 = 8192;

/// How many bytes a batch takes beside its records: gate, length, count and digest.
pub(crate) const FRAME: u64 = 41;

// How many bytes each area of a disk of so many bytes has.
pub(crate) fn half(size: u64) -> u64
    requires { 8192 ≤ size }
    ensures { result ≡ half size }
{
    (size - SLOTS) / 2
}

// Where the area of a generation begins.
pub(crate) fn area_start(size: u64, generation: u32) -> u64
    requires small { size ≤ 16777216 }
    requires least { 8192 ≤ size }
    ensures { result ≡ area_start size generation }
{
    if generation % 2 == 0 {
        SLOTS
    } else {
        SLOTS + half(size)
    }
}

// How many bytes a waiting batch takes.
pub(crate) fn waiting_length(batch: &Batch) -> u64
    requires { waiting_length batch.now < 2 ^ 32 }
    ensures { result ≡ waiting_length batch.now }
{
    if batch.is_empty() {
        0
    } else {
        batch.bytes() + FRAME
    }
}
