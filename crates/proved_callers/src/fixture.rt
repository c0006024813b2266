//! What the tests share: parties, and what they send.

use x12_acks::SetKey;
use x12_envelopes::Party;

pub(crate) const ALPHA: Party = Party {
    qualifier: *b"ZZ",
    id: *b"ALPHA          ",
};

pub(crate) const BETA: Party = Party {
    qualifier: *b"ZZ",
    id: *b"BETA           ",
};

pub(crate) const HUB: Party = Party {
    qualifier: *b"ZZ",
    id: *b"HUB            ",
};

/// The hub that HUB may be connected to.
pub(crate) const OTHER: Party = Party {
    qualifier: *b"ZZ",
    id: *b"HUB2           ",
};

/// ALPHA's order to BETA, with interchange number 1.
pub(crate) const FIRST: &[u8] =
    b"ISA*00*          *00*          *ZZ*ALPHA          *ZZ*BETA           *250102*0930*U*00401*000000001*1*P*:~GS*PO*ALPHA*BETA*20250102*0930*1*X*004010~ST*850*0001~BEG*00*SA*PO-1**20250102~PO1*1*10*EA*5~SE*4*0001~GE*1*1~IEA*1*000000001~";

/// Another, with number 2.
pub(crate) const SECOND: &[u8] =
    b"ISA*00*          *00*          *ZZ*ALPHA          *ZZ*BETA           *250102*0930*U*00401*000000002*1*P*:~GS*PO*ALPHA*BETA*20250102*0930*2*X*004010~ST*850*0001~BEG*00*SA*PO-2**20250102~PO1*1*10*EA*5~SE*4*0001~GE*1*2~IEA*1*000000002~";

/// Another, with number 3.
pub(crate) const THIRD: &[u8] =
    b"ISA*00*          *00*          *ZZ*ALPHA          *ZZ*BETA           *250102*0930*U*00401*000000003*1*P*:~GS*PO*ALPHA*BETA*20250102*0930*3*X*004010~ST*850*0001~BEG*00*SA*PO-3**20250102~PO1*1*10*EA*5~SE*4*0001~GE*1*3~IEA*1*000000003~";

/// A second partner of ALPHA.
pub(crate) const GAMMA: Party = Party {
    qualifier: *b"ZZ",
    id: *b"GAMMA          ",
};

/// GAMMA's order to ALPHA.
pub(crate) const FROM_GAMMA: &[u8] =
    b"ISA*00*          *00*          *ZZ*GAMMA          *ZZ*ALPHA          *250102*0930*U*00401*000000007*1*P*:~GS*PO*GAMMA*ALPHA*20250102*0930*1*X*004010~ST*850*0001~BEG*00*SA*PO-4**20250102~PO1*1*10*EA*5~SE*4*0001~GE*1*1~IEA*1*000000007~";

/// BETA accepts ALPHA's first order, and sends one of its own, in one interchange.
pub(crate) const MIXED: &[u8] =
    b"ISA*00*          *00*          *ZZ*BETA           *ZZ*ALPHA          *250102*0931*U*00401*000000001*0*P*:~GS*FA*BETA*ALPHA*20250102*0931*1*X*004010~ST*997*0001~AK1*PO*1~AK2*850*0001~AK5*A~AK9*A*1*1*1~SE*6*0001~GE*1*1~GS*PO*BETA*ALPHA*20250102*0931*2*X*004010~ST*850*0001~BEG*00*SA*PO-9**20250102~PO1*1*10*EA*5~SE*4*0001~GE*1*2~IEA*2*000000001~";

/// The key of a set in the first group of an interchange of this number.
pub(crate) fn first_set(sender: Party, icn: u32) -> SetKey {
    SetKey {
        sender,
        icn,
        group: 1,
        set: 1,
    }
}
