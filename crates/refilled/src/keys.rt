//! The keys that are inserted: 1, 2 and so on. Their hashes are spread over all 64 bits, but for one in sixteen: these have the
//! same one.

pub fn hash_of(key: u64) -> u64 {
    let k = key % 65536;
    if k % 16 == 5 {
        return 0x7000000000000008;
    }
    let x = (k * 1103515245 + 12345) % 2147483648;
    let y = (x * 69069 + 1) % 2147483648;
    let low = x / 32768;
    let high = y / 32768;
    low + 65536 * high + 4294967296 * low + 281474976710656 * high
}
