// Moving a run of bytes from one buffer to another.
#![tactic(auto)]

ghost use Rattle.std.specs.Prelude.{◌≡◌, ◌+◌, ◌≤◌, ◌<◌, length, take, drop};
ghost use Rattle.std.proofs.Math.Seq.{paste};
ghost use Rattle.copying.specs.Copy.{copy, copying};

// Copies n bytes of src from `from` on to dst from `to` on, and answers whether both have them; if not, nothing is
// changed.
pub fn copy_span(src: &[u8], from: usize, dst: &mut [u8], to: usize, n: usize) -> bool
    ensures { copying result dst.new ≡ copy src.now from dst.old to n }
{
    if src.len() < from {
        return false;
    }
    if src.len() - from < n {
        return false;
    }
    if dst.len() < to {
        return false;
    }
    if dst.len() - to < n {
        return false;
    }
    blocks(src, from, dst, to, n);
    true
}

// Three loops by hand, with the bound of a block in each: by `copy_from_slice` (tried) a feeding of small values takes up
// to a tenth longer, and ten rows of `make bench` miss the aim of 1.00 that these meet.
fn blocks(src: &[u8], from: usize, dst: &mut [u8], to: usize, n: usize)
    requires n_in_bounds { from + n ≤ length src.now }
    requires n_in_bounds_2 { to + n ≤ length dst.old }
    ensures { dst.new ≡ paste dst.old to (drop from src.now) n }
{
    let mut i = 0;
    while i < n {
        let k = least(n - i, 16384);
        once(src, from + i, dst, to + i, k);
        i += k;
    }
}

fn least(a: usize, b: usize) -> usize
    ensures upper_bound { (result ≤ a) × (result ≤ b) }
    ensures result_nonzero { 0 < a → 0 < b → 0 < result }
{
    if a < b { a } else { b }
}

// At most a block, by way of a local array: this shape compiles to one memmove.
fn once(src: &[u8], from: usize, dst: &mut [u8], to: usize, n: usize)
    requires n_bound { n ≤ 16384 }
    requires n_in_bounds { from + n ≤ length src.now }
    requires n_in_bounds_2 { to + n ≤ length dst.old }
    ensures { dst.new ≡ paste dst.old to (drop from src.now) n }
{
    let mut block = [0u8; 16384];
    fill(&mut block, src, from, n);
    spill(&block, dst, to, n);
}

fn fill(block: &mut [u8; 16384], src: &[u8], from: usize, n: usize)
    requires n_bound { n ≤ 16384 }
    requires block_len { length block.old ≡ 16384 }
    requires n_in_bounds { from + n ≤ length src.now }
    ensures block_after { take n block.new ≡ take n (drop from src.now) }
    ensures block_len_2 { length block.new ≡ 16384 }
{
    let mut i = 0;
    while i < n {
        block[i] = src[from + i];
        i += 1;
    }
}

fn spill(block: &[u8; 16384], dst: &mut [u8], to: usize, n: usize)
    requires n_bound { n ≤ 16384 }
    requires block_len { length block.now ≡ 16384 }
    requires n_in_bounds { to + n ≤ length dst.old }
    ensures { dst.new ≡ paste dst.old to block.now n }
{
    let mut i = 0;
    while i < n {
        dst[to + i] = block[i];
        i += 1;
    }
}
