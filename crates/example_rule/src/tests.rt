// tests.rt — the rule by itself and under a layer of sheltering.
use crate::*;
use tie::Sheltering;

#[test]
fn highest(rt: HostRuntime) {
    let list = [
        Candidate::new(false, 7),
        Candidate::new(true, 5),
        Candidate::new(true, 3),
        Candidate::new(true, 3),
    ];
    assert_eq!(rt; HighestPort.pick(&list), 3);
    let mut layer = Sheltering::new(HighestPort);
    assert!(rt; layer.shelter(3, true).is_ok());
    assert_eq!(rt; layer.pick(&list), 2);
    assert_eq!(rt; layer.pick(&[Candidate::new(false, 0); 4]), NO_PORT);
}
