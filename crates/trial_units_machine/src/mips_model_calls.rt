//! The numbers of the services.

use mips_model::Service;

#[test]
fn services_have_their_numbers(rt: HostRuntime) {
    let found = [
        Service::from_number(1),
        Service::from_number(64),
        Service::from_number(66),
        Service::from_number(67),
        Service::from_number(68),
        Service::from_number(63),
        Service::from_number(69),
    ];
    assert!(rt;
        found
            == [
                Some(Service::PutInt),
                Some(Service::Begin),
                Some(Service::Finish),
                Some(Service::Flush),
                Some(Service::Publish),
                None,
                None,
            ]
    );
}
