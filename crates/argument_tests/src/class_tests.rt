//! The storage classes that `serve` and `replay` accept for a command line.
use crate::asked::asks;
use std::test::Fail;

static ASKED: &str = "dcmbox serve --port 104 --out files
all-storage | no
classes |
dcmbox serve --port 104 --out files --storage-class 2.25.2 --all-storage --storage-class 2.25.1
all-storage | yes
classes | 2.25.2 2.25.1
dcmbox replay FILE --out files
all-storage | no
classes |
dcmbox replay FILE --out files --storage-class 2.25.3
all-storage | no
classes | 2.25.3
dcmbox replay FILE --out files --all-storage
all-storage | yes
classes |";

#[test]
fn classes_are_those_that_are_asked_for(rt: HostRuntime) -> Result<(), Fail> {
    asks(rt.alloc(), ASKED)
}

static REFUSED: &str = "dcmbox serve --port 104 --out files --storage-class 2.25.x
refused | error: --storage-class takes a UID of 1 to 64 digits and dots, not '2.25.x'
dcmbox replay FILE --out files --storage-class 2.25.1 --storage-class 2.25.2 --storage-class 2.25.1
refused | error: --storage-class names '2.25.1' twice";

#[test]
fn classes_are_refused(rt: HostRuntime) -> Result<(), Fail> {
    asks(rt.alloc(), REFUSED)
}

static MANY: &str = "dcmbox serve --port 104 --out files --storage-class=2.25.#*64
classes count | 64
classes last | 2.25.63
dcmbox replay FILE --out files --storage-class=2.25.#*64
classes count | 64
dcmbox serve --port 104 --out files --storage-class=2.25.#*65
refused | error: --storage-class may be given 64 times at most
dcmbox replay FILE --out files --storage-class=2.25.#*65
refused | error: --storage-class may be given 64 times at most";

#[test]
fn sixty_four_classes_are_accepted(rt: HostRuntime) -> Result<(), Fail> {
    asks(rt.alloc(), MANY)
}
