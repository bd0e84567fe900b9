use fault::{Cause, Fault, Layer};
use std::test::Fail;

#[test]
fn tells_number_layer_and_place(rt: HostRuntime) {
    let fault = Fault::in_line(Layer::Text, Cause::NotANumber, 4, 6);
    assert_eq!(rt; fault.number(), 3);
    assert_eq!(rt; fault.layer_name(), "text");
    assert_eq!(rt; fault.place_number(), 4);
    assert_eq!(rt; fault.column(), 6);
}

#[test]
fn reads_as_a_sentence(rt: HostRuntime) -> Result<(), Fail> {
    let heap = rt.alloc();
    let nowhere = Fault::nowhere(Layer::Heap, Cause::EmptySlot);
    let line = Fault::in_line(Layer::Admission, Cause::MissesDeadline, 5, 0);
    assert_eq!(rt;
        Fault::past_end(64).to_string(heap)?.as_str(),
        "refusal 1 of the memory at word 64: the place is past the end of the memory"
    );
    assert_eq!(rt;
        nowhere.to_string(heap)?.as_str(),
        "refusal 14 of the heap: the slot is empty"
    );
    assert_eq!(rt;
        line.to_string(heap)?.as_str(),
        "refusal 7 of the admission at line 5: this task can miss its deadline"
    );
    Ok(())
}
