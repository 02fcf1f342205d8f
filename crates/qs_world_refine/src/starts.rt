//! What is seen of a transaction of which nothing was heard, and of one that begins.
ghost use Rattle.qs_world_refine.specs.StartLaws.{UnseenShown, UnseenOpens, UnseenLawful, StartUnseen, StartShown, StartOpens, BeginGoes, BeginLeaves, BegunShown};

/// Where nothing is seen of a transaction, the agreement machine at its start shows it, and that is a start that the machine
/// may have where the home runs.
pub fn unseen()
    ensures shown { UnseenShown }
    ensures opens { UnseenOpens }
    ensures lawful { UnseenLawful }
{}

/// As a world begins, nothing is seen of a transaction of which no log has a record, and the machine at its start shows it.
pub fn worlds()
    ensures unseen { StartUnseen }
    ensures shown { StartShown }
    ensures opens { StartOpens }
{}

/// A client begins a transaction: the machine at its start shows it then, and what shows another one shows it still.
pub fn begins()
    ensures goes { BeginGoes }
    ensures leaves { BeginLeaves }
    ensures begun { BegunShown }
{}
