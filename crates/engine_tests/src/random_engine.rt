//! Which words a seed gives. The runs that they make are in `cases/texts.tsv`.

use engine_random::draw;
use rand_core::SeedableRng;
use rand_pcg::Lcg128Xsl64;

/// The first two draws from the seeds 0 and 1.
static DRAWN: [(u64, [[u64; 4]; 2]); 2] = [
    (
        0,
        [
            [
                0x20ae25dad4e2bc53,
                0x58f938e12bbf69fb,
                0xb5b235d60cf8e231,
                0x09f71ee2b019a7da,
            ],
            [
                0xdb337b32c88c1a5e,
                0x299d525e1e3f808b,
                0x32f94202562eae4d,
                0x818bd26fb744f4c9,
            ],
        ],
    ),
    (
        1,
        [
            [
                0xd701f5c824062d47,
                0x046daf9b8abaaf57,
                0x1d28a998490db5a0,
                0xfba6edc5ac33e7d3,
            ],
            [
                0xe36ddf87ec7c20f0,
                0x79d1509c1daf7308,
                0x301c0515e68cf375,
                0x6364e19057154771,
            ],
        ],
    ),
];

#[test]
fn words_of_a_seed(rt: HostRuntime) {
    for (seed, words) in DRAWN {
        let mut generator = Lcg128Xsl64::seed_from_u64(seed);
        assert!(rt; [draw(&mut generator), draw(&mut generator)] == words);
    }
}
