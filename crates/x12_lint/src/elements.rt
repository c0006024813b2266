//! The elements of segments that several sets have, as rows of the table that is built in.

/// The elements of lines.
pub(crate) const LINES: &str = "\
PO1 1 350 may AN 1 20 assigned identification
PO1 2 330 may R 1 15 quantity ordered
PO1 3 355 may ID 2 2 unit or basis for measurement code
PO1 4 212 may R 1 17 unit price
PO1 5 639 may ID 2 2 basis of unit price code
PO1 6 235 may ID 2 2 product/service id qualifier
PO1 7 234 may AN 1 48 product/service id
PO1 8 235 may ID 2 2 product/service id qualifier
PO1 9 234 may AN 1 48 product/service id
PO1 10 235 may ID 2 2 product/service id qualifier
PO1 11 234 may AN 1 48 product/service id
PO1 12 235 may ID 2 2 product/service id qualifier
PO1 13 234 may AN 1 48 product/service id
PO1 14 235 may ID 2 2 product/service id qualifier
PO1 15 234 may AN 1 48 product/service id
CTT 1 354 must N0 1 6 number of line items
CTT 2 347 may R 1 10 hash total
CTT 3 81 may R 1 10 weight
CTT 4 355 may ID 2 2 unit or basis for measurement code
CTT 5 183 may R 1 8 volume
CTT 6 355 may ID 2 2 unit or basis for measurement code
CTT 7 352 may AN 1 80 description
IT1 1 350 may AN 1 20 assigned identification
IT1 2 358 may R 1 10 quantity invoiced
IT1 3 355 may ID 2 2 unit or basis for measurement code
IT1 4 212 may R 1 17 unit price
IT1 5 639 may ID 2 2 basis of unit price code
IT1 6 235 may ID 2 2 product/service id qualifier
IT1 7 234 may AN 1 48 product/service id
IT1 8 235 may ID 2 2 product/service id qualifier
IT1 9 234 may AN 1 48 product/service id
IT1 10 235 may ID 2 2 product/service id qualifier
IT1 11 234 may AN 1 48 product/service id
IT1 12 235 may ID 2 2 product/service id qualifier
IT1 13 234 may AN 1 48 product/service id
IT1 14 235 may ID 2 2 product/service id qualifier
IT1 15 234 may AN 1 48 product/service id
LIN 1 350 may AN 1 20 assigned identification
LIN 2 235 must ID 2 2 product/service id qualifier
LIN 3 234 must AN 1 48 product/service id
LIN 4 235 may ID 2 2 product/service id qualifier
LIN 5 234 may AN 1 48 product/service id
LIN 6 235 may ID 2 2 product/service id qualifier
LIN 7 234 may AN 1 48 product/service id
LIN 8 235 may ID 2 2 product/service id qualifier
LIN 9 234 may AN 1 48 product/service id
LIN 10 235 may ID 2 2 product/service id qualifier
LIN 11 234 may AN 1 48 product/service id
LIN 12 235 may ID 2 2 product/service id qualifier
LIN 13 234 may AN 1 48 product/service id
SN1 1 350 may AN 1 20 assigned identification
SN1 2 382 must R 1 10 number of units shipped
SN1 3 355 must ID 2 2 unit or basis for measurement code
SN1 5 330 may R 1 15 quantity ordered
SN1 6 355 may ID 2 2 unit or basis for measurement code
SN1 8 668 may ID 2 2 line item status code
SLN 1 350 must AN 1 20 assigned identification
SLN 2 350 may AN 1 20 assigned identification
SLN 3 662 must ID 1 1 relationship code
SLN 4 380 may R 1 15 quantity
SLN 6 212 may R 1 17 unit price
SLN 7 639 may ID 2 2 basis of unit price code
SLN 8 662 may ID 1 1 relationship code
SLN 9 235 may ID 2 2 product/service id qualifier
SLN 10 234 may AN 1 48 product/service id
SLN 11 235 may ID 2 2 product/service id qualifier
SLN 12 234 may AN 1 48 product/service id
SLN 13 235 may ID 2 2 product/service id qualifier
SLN 14 234 may AN 1 48 product/service id
SLN 15 235 may ID 2 2 product/service id qualifier
SLN 16 234 may AN 1 48 product/service id
SLN 17 235 may ID 2 2 product/service id qualifier
SLN 18 234 may AN 1 48 product/service id
ACK 1 668 must ID 2 2 line item status code
ACK 2 380 may R 1 15 quantity
ACK 3 355 may ID 2 2 unit or basis for measurement code
ACK 4 374 may ID 3 3 date/time qualifier
ACK 5 373 may DT 8 8 date
ACK 6 326 may AN 1 45 request reference number
ACK 7 235 may ID 2 2 product/service id qualifier
ACK 8 234 may AN 1 48 product/service id
ACK 9 235 may ID 2 2 product/service id qualifier
ACK 10 234 may AN 1 48 product/service id
ACK 11 235 may ID 2 2 product/service id qualifier
ACK 12 234 may AN 1 48 product/service id
ACK 13 235 may ID 2 2 product/service id qualifier
ACK 14 234 may AN 1 48 product/service id
ACK 15 235 may ID 2 2 product/service id qualifier
ACK 16 234 may AN 1 48 product/service id
PID 1 349 must ID 1 1 item description type: F S X
PID 2 750 may ID 2 3 product/process characteristic code
PID 3 559 may ID 2 2 agency qualifier code
PID 4 751 may AN 1 12 product description code
PID 5 352 may AN 1 80 description
PO4 1 356 may N0 1 6 pack
PO4 2 357 may R 1 8 size
PO4 3 355 may ID 2 2 unit or basis for measurement code
PO4 4 103 may AN 3 5 packaging code
MAN 1 88 must ID 1 2 marks and numbers qualifier
MAN 2 87 must AN 1 48 marks and numbers
MAN 3 87 may AN 1 48 marks and numbers
MAN 4 88 may ID 1 2 marks and numbers qualifier
MAN 5 87 may AN 1 48 marks and numbers
MAN 6 87 may AN 1 48 marks and numbers
PRF 1 324 must AN 1 22 purchase order number
PRF 2 328 may AN 1 30 release number
PRF 3 327 may AN 1 8 change order sequence number
PRF 4 373 may DT 8 8 date
PRF 5 350 may AN 1 20 assigned identification
PRF 6 367 may AN 1 30 contract number
PRF 7 92 may ID 2 2 purchase order type code
HL 1 628 must AN 1 12 hierarchical id number
HL 2 734 may AN 1 12 hierarchical parent id number
HL 3 735 must ID 1 2 hierarchical level code
HL 4 736 may ID 1 1 hierarchical child code
SCH 1 380 must R 1 15 quantity
SCH 2 355 must ID 2 2 unit or basis for measurement code
SCH 3 98 may ID 2 3 entity identifier code
SCH 4 93 may AN 1 60 name
SCH 5 374 must ID 3 3 date/time qualifier
SCH 6 373 must DT 8 8 date
SCH 7 337 may TM 4 8 time
SCH 8 374 may ID 3 3 date/time qualifier
SCH 9 373 may DT 8 8 date
SCH 10 337 may TM 4 8 time
";

/// The elements of parties, references, dates and notes.
pub(crate) const PARTIES: &str = "\
N1 1 98 must ID 2 3 entity identifier code
N1 2 93 may AN 1 60 name
N1 3 66 may ID 1 2 identification code qualifier
N1 4 67 may AN 2 80 identification code
N1 5 706 may ID 2 2 entity relationship code
N1 6 98 may ID 2 3 entity identifier code
N2 1 93 must AN 1 60 name
N2 2 93 may AN 1 60 name
N3 1 166 must AN 1 55 address information
N3 2 166 may AN 1 55 address information
N4 1 19 may AN 2 30 city name
N4 2 156 may ID 2 2 state or province code
N4 3 116 may ID 3 15 postal code
N4 4 26 may ID 2 3 country code
N4 5 309 may ID 1 2 location qualifier
N4 6 310 may AN 1 30 location identifier
REF 1 128 must ID 2 3 reference identification qualifier
REF 2 127 may AN 1 30 reference identification
REF 3 352 may AN 1 80 description
DTM 1 374 must ID 3 3 date/time qualifier
DTM 2 373 may DT 8 8 date
DTM 3 337 may TM 4 8 time
DTM 4 623 may ID 2 2 time code
DTM 5 1250 may ID 2 3 date time period format qualifier
DTM 6 1251 may AN 1 35 date time period
PER 1 366 must ID 2 2 contact function code
PER 2 93 may AN 1 60 name
PER 3 365 may ID 2 2 communication number qualifier
PER 4 364 may AN 1 80 communication number
PER 5 365 may ID 2 2 communication number qualifier
PER 6 364 may AN 1 80 communication number
PER 7 365 may ID 2 2 communication number qualifier
PER 8 364 may AN 1 80 communication number
PER 9 443 may AN 1 20 contact inquiry reference
N9 1 128 must ID 2 3 reference identification qualifier
N9 2 127 may AN 1 30 reference identification
N9 3 369 may AN 1 45 free-form description
N9 4 373 may DT 8 8 date
N9 5 337 may TM 4 8 time
N9 6 623 may ID 2 2 time code
MSG 1 933 must AN 1 264 free-form message text
MSG 2 934 may ID 2 2 printer carriage control code
MSG 3 1470 may N0 1 9 number
NTE 1 363 may ID 3 3 note reference code
NTE 2 352 must AN 1 80 description
";

/// The elements of sums.
pub(crate) const SUMS: &str = "\
AMT 1 522 must ID 1 3 amount qualifier code
AMT 2 782 must R 1 18 monetary amount
AMT 3 478 may ID 1 1 credit/debit flag code
TDS 1 610 must N2 1 15 amount
TDS 2 610 may N2 1 15 amount
TDS 3 610 may N2 1 15 amount
TDS 4 610 may N2 1 15 amount
SAC 1 248 must ID 1 1 allowance or charge indicator: A C N P Q R S
SAC 2 1300 may ID 4 4 service, promotion, allowance, or charge code
SAC 3 559 may ID 2 2 agency qualifier code
SAC 4 1301 may AN 1 10 agency service, promotion, allowance, or charge code
SAC 5 610 may N2 1 15 amount
SAC 6 378 may ID 1 1 allowance/charge percent qualifier
SAC 7 332 may R 1 6 percent
SAC 8 118 may R 1 9 rate
SAC 9 355 may ID 2 2 unit or basis for measurement code
SAC 10 380 may R 1 15 quantity
SAC 11 380 may R 1 15 quantity
SAC 12 331 may ID 2 2 allowance or charge method of handling code
SAC 13 127 may AN 1 30 reference identification
SAC 14 770 may AN 1 20 option number
SAC 15 352 may AN 1 80 description
TXI 1 963 must ID 2 2 tax type code
TXI 2 782 may R 1 18 monetary amount
TXI 3 954 may R 1 10 percent
TXI 4 955 may ID 2 2 tax jurisdiction code qualifier
TXI 5 956 may AN 1 10 tax jurisdiction code
TXI 6 441 may ID 1 1 tax exempt code
TXI 7 662 may ID 1 1 relationship code
TXI 8 828 may R 1 9 dollar basis for percent
TXI 9 325 may AN 1 20 tax identification number
TXI 10 350 may AN 1 20 assigned identification
ISS 1 382 may R 1 10 number of units shipped
ISS 2 355 may ID 2 2 unit or basis for measurement code
ISS 3 81 may R 1 10 weight
ISS 4 355 may ID 2 2 unit or basis for measurement code
ISS 5 183 may R 1 8 volume
ISS 6 355 may ID 2 2 unit or basis for measurement code
";

/// The elements of terms and carriers.
pub(crate) const TERMS: &str = "\
CUR 1 98 must ID 2 3 entity identifier code
CUR 2 100 must ID 3 3 currency code
CUR 3 280 may R 4 10 exchange rate
CUR 4 98 may ID 2 3 entity identifier code
CUR 5 100 may ID 3 3 currency code
FOB 1 146 must ID 2 2 shipment method of payment: 11 BP CA CC CD CF DE DF FO HP MX NC NR PA PB PC PD PE PL PO PP PS PU RC RF RS TP WC
FOB 2 309 may ID 1 2 location qualifier
FOB 3 352 may AN 1 80 description
FOB 4 334 may ID 2 2 transportation terms qualifier code
FOB 5 335 may ID 3 3 transportation terms code
FOB 6 309 may ID 1 2 location qualifier
FOB 7 352 may AN 1 80 description
FOB 8 54 may ID 2 2 risk of loss code
FOB 9 352 may AN 1 80 description
ITD 1 336 may ID 2 2 terms type code
ITD 2 333 may ID 1 2 terms basis date code
ITD 3 338 may R 1 6 terms discount percent
ITD 4 370 may DT 8 8 terms discount due date
ITD 5 351 may N0 1 3 terms discount days due
ITD 6 446 may DT 8 8 terms net due date
ITD 7 386 may N0 1 3 terms net days
ITD 8 362 may N2 1 10 terms discount amount
ITD 9 388 may DT 8 8 terms deferred due date
ITD 10 389 may N2 1 10 deferred amount due
ITD 11 342 may R 1 5 percent of invoice payable
ITD 12 352 may AN 1 80 description
TD1 1 103 may AN 3 5 packaging code
TD1 2 80 may N0 1 7 lading quantity
TD1 3 23 may ID 1 1 commodity code qualifier
TD1 4 22 may AN 1 30 commodity code
TD1 5 79 may AN 1 50 lading description
TD1 6 187 may ID 1 2 weight qualifier
TD1 7 81 may R 1 10 weight
TD1 8 355 may ID 2 2 unit or basis for measurement code
TD1 9 183 may R 1 8 volume
TD1 10 355 may ID 2 2 unit or basis for measurement code
TD5 1 133 may ID 1 2 routing sequence code
TD5 2 66 may ID 1 2 identification code qualifier
TD5 3 67 may AN 2 80 identification code
TD5 4 91 may ID 1 2 transportation method/type code
TD5 5 387 may AN 1 35 routing
TD5 6 368 may ID 2 2 shipment/order status code
TD5 7 309 may ID 1 2 location qualifier
TD5 8 310 may AN 1 30 location identifier
TD5 12 284 may ID 2 2 service level code
CAD 1 91 may ID 1 2 transportation method/type code
CAD 2 206 may AN 1 4 equipment initial
CAD 3 207 may AN 1 10 equipment number
CAD 4 140 may ID 2 4 standard carrier alpha code
CAD 5 387 may AN 1 35 routing
CAD 6 368 may ID 2 2 shipment/order status code
CAD 7 128 may ID 2 3 reference identification qualifier
CAD 8 127 may AN 1 30 reference identification
CAD 9 284 may ID 2 2 service level code
";
