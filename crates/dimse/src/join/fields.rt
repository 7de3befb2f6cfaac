//! Lists the fields of a [`Join`] with their types, to show that only `command` holds received
//! bytes. A field added to it does not compile until it is listed here.

use super::Join;
use crate::stage::Stage;
use arrayvec::ArrayVec;

fn fields<const C: usize>(join: &Join<C>) {
    let Join {
        stage,
        context,
        command,
        remaining,
        last,
    } = join;
    let _: &u8 = context;
    let _: &ArrayVec<u8, C> = command;
    let _: &u32 = remaining;
    let _: &bool = last;
    stage_fields(*stage);
}

fn stage_fields(stage: Stage) {
    match stage {
        Stage::Between => {}
        Stage::Command => {}
        Stage::Set => {}
    }
}
