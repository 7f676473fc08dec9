use pie_base::Text;
use pie_files::SureFiles;
use pie_store::{NoOffers, Offers};
use pie_value::{Items, Task};
use std::test::Fail;

#[test]
fn nobody_offers_nothing(rt: HostRuntime) -> Result<(), Fail> {
    let alloc = rt.alloc();
    let task = Task {
        func: Text::new(alloc, "one")?,
        args: Items::new(),
    };
    assert!(rt; task.is_small());
    let mut files = SureFiles::new(alloc);
    let offers = NoOffers.offers(alloc, &mut files, &task, &[0; 32])?;
    assert_eq!(rt; offers.len(), 0);
    Ok(())
}
