//! What is equal, by calls that say so; and what an end says, and no words mean.
use xc_list::{End, ListingFault, SpanFault, Verdict, WordFault, Words, laws};

const VERDICTS: [Verdict; 2] = [
    Verdict {
        number: 1,
        cover: true,
    },
    Verdict {
        number: 1,
        cover: false,
    },
];

/// What no words mean, and a limit.
const WORDS: [Words; 2] = [
    Words {
        spacing: 0,
        limit: u64::MAX,
    },
    Words {
        spacing: 0,
        limit: 1,
    },
];

#[test]
fn equal_values(rt: HostRuntime) {
    let [done, limit] = [End::Done(1), End::Limit(1)];
    assert!(rt; laws::equal_ends(&done, &done) && !laws::equal_ends(&done, &limit));
    assert!(rt; limit.solutions() == 1 && End::WriteFailed(2).solutions() == 2);
    let [cover, none] = &VERDICTS;
    assert!(rt; laws::equal_verdicts(cover, cover) && !laws::equal_verdicts(cover, none));
    let [all, one] = &WORDS;
    assert!(rt; laws::equal_words(&Words::default(), all) && !laws::equal_words(all, one));
    let [unknown, bad] = [WordFault::Unknown(1), WordFault::BadNumber(1)];
    assert!(rt; laws::equal_word_faults(&bad, &bad) && !laws::equal_word_faults(&unknown, &bad));
    let [first, second] = [ListingFault::BadLine(1), ListingFault::BadLine(2)];
    assert!(rt; laws::equal_listing_faults(&first, &first));
    assert!(rt; !laws::equal_listing_faults(&first, &second));
    let [failed, memory] = [SpanFault::WriteFailed, SpanFault::Memory];
    assert!(rt; laws::equal_span_faults(&failed, &failed));
    assert!(rt; !laws::equal_span_faults(&failed, &memory));
}
