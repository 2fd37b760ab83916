//! The words of the random choice.
use bp_draw::word_of;
use std::test::Fail;

/// Seeds, places and words: those of the seeds 0 and 1 from the published key streams of ChaCha8,
/// the others from another implementation that gives these two. A block has 16 words.
const WORDS: &str = "
0 0 2fef003e
0 1 d6405f89
0 2 e8b85b7f
0 7 1e1a71ef
1 0 a0e95ecf
1 1 61a94a49
1 2 edd5053e
1 7 ea890474
7 0 2c44ba73
7 1 c39ca672
7 15 31a00622
7 16 69b9ff4d
12345 0 aebfe0b5
12345 17 70c8a05d
12345 1000 5ea17221
18446744073709551615 0 227148c7
18446744073709551615 1 b44e8639
18446744073709551615 1000 41391574
";

fn holds(line: &str) -> Result<bool, Fail> {
    let (front, word) = line.rsplit_once(" ").ok_or("no word")?;
    let (seed, place) = front.split_once(" ").ok_or("no place")?;
    let found = word_of(seed.parse::<u64>()?, place.parse::<u64>()?);
    Ok(found == u32::from_str_radix(word, 16)?)
}

#[test]
fn words_of_five_seeds(rt: HostRuntime) -> Result<(), Fail> {
    for line in WORDS.trim().lines() {
        assert!(rt; holds(line)?, "{line}");
    }
    Ok(())
}
