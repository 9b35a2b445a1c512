use crate::answers::number_of;
use arena::memory::Memory;

#[test]
fn memory_is_granted_up_to_its_limits(rt: HostRuntime) {
    assert_eq!(rt; number_of(Memory::reserve(rt.alloc(), 1, 0)), None);
    assert_eq!(rt;
        number_of(Memory::reserve(rt.alloc(), 65_535, 65_536)),
        None
    );
}

#[test]
fn memory_outside_its_limits_is_refused(rt: HostRuntime) {
    assert_eq!(rt; number_of(Memory::reserve(rt.alloc(), 0, 0)), Some(1));
    assert_eq!(rt; number_of(Memory::reserve(rt.alloc(), 65_536, 0)), Some(1));
    assert_eq!(rt; number_of(Memory::reserve(rt.alloc(), 1, 65_537)), Some(1));
}
