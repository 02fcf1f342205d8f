//! A node that is engaged, covers what it sent, answers and is engaged anew; and a home, which never is.
use qs_base::NodeNo;
use qs_engage::{Engage, Engaged};

const ONE: NodeNo = NodeNo(1);

const TWO: NodeNo = NodeNo(2);

#[test]
fn a_node_is_engaged(rt: HostRuntime) {
    let mut engage = Engage::new(false);
    assert!(rt;
        engage.requested(ONE, 1) == Engaged::Superior
            && engage.requested(TWO, 1) == Engaged::Elsewhere
    );
    assert!(rt; engage.sent(TWO) == Some(1) && !engage.passive());
    engage.covered(TWO, 1);
    assert!(rt; engage.passive() && engage.release() == Some((ONE, 1)));
    assert!(rt; engage.requested(TWO, 2) == Engaged::Superior);
}

#[test]
fn a_home_is_engaged_never(rt: HostRuntime) {
    let mut home = Engage::new(true);
    assert!(rt; home.requested(ONE, 1) == Engaged::Elsewhere);
    assert!(rt; home.release() == None);
}
