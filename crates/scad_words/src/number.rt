//! Numbers in words.
ghost use Rattle.std.specs.Prelude.{◌≡◌, ◌≤◌, IfSome};
ghost use Rattle.scad_words.specs.Numbers.{is_number, number_of, worker_limit, if_workers, workers_of, if_sample, sample_of};

use text_scan::all_digits;

/// The number of a sample is below this.
const SAMPLE_LIMIT: u64 = 1 << 31;

/// The most workers that are asked for.
const WORKER_LIMIT: u64 = 64;

/// How many workers a text says: from 1 to 64, in at most nine digits.
pub(crate) fn workers_of(text: &str) -> Option<u32>
    ensures number { result ≡ workers_of text.now }
    ensures range { IfSome result (λ w. (1 ≤ w) × (w ≤ worker_limit)) }
{
    if_workers(number_of(text, 9)?)
}

fn if_workers(n: u64) -> Option<u32>
    ensures number { result ≡ if_workers n }
    ensures range { IfSome result (λ w. (1 ≤ w) × (w ≤ worker_limit)) }
{
    if 1 <= n && n <= WORKER_LIMIT {
        Some(n as u32)
    } else {
        None
    }
}

/// Which sample a text says: a number below 2^31, in at most ten digits.
pub(crate) fn sample_of(text: &str) -> Option<u32>
    ensures { result ≡ sample_of text.now }
{
    if_sample(number_of(text, 10)?)
}

fn if_sample(n: u64) -> Option<u32>
    ensures { result ≡ if_sample n }
{
    if n < SAMPLE_LIMIT {
        Some(n as u32)
    } else {
        None
    }
}

// The number that from one to so many digits write.
fn number_of(text: &str, most: usize) -> Option<u64>
    requires { most ≤ 10 }
    ensures { result ≡ number_of most text.now }
{
    if is_number(text.as_bytes(), most) {
        text.parse::<u64>().ok()
    } else {
        None
    }
}

fn is_number(text: &[u8], most: usize) -> bool
    ensures { result ≡ is_number most text.now }
{
    1 <= text.len() && text.len() <= most && all_digits(text)
}
