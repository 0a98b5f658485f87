//! The second fifty sequences of message cycles.

/// Fifty sequences of requests and replies. Each begins with the line of its stations.
pub const SECOND_HALF: &str = "stations 126 2 7 aabb
request 127 sdn low 2cf98ac85d07f13a a27f7e442cf98ac85d07f13a4716
hears 0 a27f7e442cf98ac85d07f13a4716 - 1
outcome - none
request 0 srd high 21b7 68050568007e6d21b7c316
hears 0 68050568007e6d21b7c316 - 1
again 68050568007e6d21b7c316
hears 0 68050568007e6d21b7c316 - 1
outcome - noanswer
stations 1 3 7 01
request 7 srd low - 1007016c7416
hears 1 1007016c7416 68040468010718012116 1
outcome 68040468010718012116 data:01
outcome 68040468010718012116 none
request 127 sdn low - 107f0144c416
outcome 680505687f0130f328cb16 none
request 7 sda high 0f44ea138f30669f a20701550f44ea138f30669f7116
again a20701550f44ea138f30669f7116
hears 1 a20701550f44ea138f30669f7116 e5 2
request 7 srd high - 1007017d8516
hears 1 1007017d8516 6804046801071a012316 3
again 1007017d8516
hears 1 1007017d8516 6804046801071a012316 3
stations 17 0 7 aabb
request 7 sda low 9d6b9fa66fa56f7a a20711639d6b9fa66fa56f7ac516
hears 0 a20711639d6b9fa66fa56f7ac516 e5 1
hears 0 68050568079156edd5b016 - 2
again -
outcome e5 acked
request 7 srd high - 1007115d7516
hears 0 1007115d7516 6805056811070aaabb8716 3
outcome 6805056811070aaabb8716 data:aabb
stations 17 1 7 0b
request 0 srd high a1 6804046800116da11f16
hears 0 6804046800116da11f16 - 0
outcome 107f006fee16 none
outcome - noanswer
request 127 sdn low c6f76a73500afa8cf9 680c0c687f1144c6f76a73500afa8cf94716
stations 0 7 7 0001020304050607
request 7 srd high cb37297c1a90234640 680c0c6807006dcb37297c1a902346406e16
hears 0 680c0c6807006dcb37297c1a902346406e16 a200070a00010203040506072d16 1
again 680c0c6807006dcb37297c1a902346406e16
hears 0 680c0c6807006dcb37297c1a902346406e16 a200070a00010203040506072d16 2
request 7 sdn low 71 6804046807004471bc16
hears 0 6804046807004471bc16 - 3
again -
outcome 680404680707100d2b16 none
stations 1 0 7 aabb
request 127 sdn high b276 680505687f0146b276ee16
outcome 100105020816 none
outcome - none
request 7 srd high 82ce054701e4ecd007 680c0c6807016d82ce054701e4ecd007b916
hears 3 680c0c6807016d82ce054701e4ecd007b916 6805056801073aaabba716 1
outcome 6805056801073aaabba716 data:aabb
outcome - none
stations 17 1 7 -
request 7 sda low - 100711637b16
hears 3 100711637b16 e5 1
outcome e5 acked
outcome e5 none
request 0 srd high b9127e725e5de17c a200116db9127e725e5de17c5116
hears 3 a200116db9127e725e5de17c5116 - 1
outcome 1091800d1e16 data:
outcome - none
stations 1 5 7 0001020304050607
request 127 sdn high 7158f5f65de81d13 a27f01467158f5f65de81d13ef16
outcome - none
request 0 srd low bc434e3b6c555bc1 a200016cbc434e3b6c555bc1d216
hears 2 a200016cbc434e3b6c555bc1d216 - 0
hears 2 68050568070954b7264116 - 1
outcome - noanswer
stations 126 1 7 0001020304050607
request 7 sda low - 10077e63e816
hears 0 10077e63e816 e5 1
outcome e5 acked
outcome - none
request 7 sdn high 0c 68040468077e460cd716
hears 0 680c0c6807095f260ef0365a192f2fea8416 - 1
outcome - none
request 7 srd high 4f8b 68050568077e5d4f8bbc16
hears 0 68050568077e5d4f8bbc16 a27e070a0001020304050607ab16 2
outcome 68040468070747fc5116 none
outcome - noanswer
request 0 sda low - 10007e63e116
hears 0 10007e63e116 - 2
again 10007e63e116
hears 0 10007e63e116 - 2
outcome - noanswer
stations 2 0 7 01
request 7 sdn low dc3f544e52980c4b a2070244dc3f544e52980c4b4b16
hears 1 a2070244dc3f544e52980c4b4b16 - 1
outcome - none
request 0 srd high - 1000026d6f16
outcome 100200111316 noresource
outcome - none
stations 0 4 7 aabb
request 127 sdn high - 107f0046c516
hears 0 107f0046c516 - 1
outcome - none
outcome - none
request 7 sdn low - 100700444b16
hears 0 100700444b16 - 2
hears 0 680c0c687f007f2a819052d2b0fcacb26716 - 2
outcome - none
request 127 sdn high 8c52950128f092bd92 680c0c687f00468c52950128f092bd923216
hears 0 680c0c687f00468c52950128f092bd923216 - 3
again -
outcome - none
request 7 srd high c1 6804046807006dc13516
hears 0 6804046807006dc13516 6805056800070aaabb7616 4
outcome 6805056800070aaabb7616 data:aabb
stations 1 0 7 -
request 127 sdn low - 107f0144c416
hears 1 107f0144c416 - 1
outcome - none
request 7 srd high - 1007016d7516
hears 1 1007016d7516 100107192116 2
again -
outcome - noanswer
stations 2 2 7 10dd
request 7 srd low 2931377cc31adcdd a207026c2931377cc31adcdd1816
hears 2 a207026c2931377cc31adcdd1816 6805056802072810dd1e16 1
outcome 6805056802072810dd1e16 data:10dd
outcome e5 none
outcome - none
request 0 sda high d3f5 68050568000265d3f52f16
hears 2 68050568000265d3f52f16 - 1
request 7 sda high - 100702555e16
outcome 68040468020720a7d016 acked
again -
outcome - none
request 7 srd high df 6804046807027ddf6516
hears 2 6804046807027ddf6516 6805056802072810dd1e16 1
outcome 6805056802072810dd1e16 data:10dd
outcome 6805056802072810dd1e16 none
stations 0 4 7 aabb
request 127 sdn high - 107f0046c516
hears 0 107f0046c516 - 1
outcome - none
request 126 srd low ef23de7ec999c4be41 680c0c687e006cef23de7ec999c4be417d16
hears 0 680c0c687e006cef23de7ec999c4be417d16 - 1
outcome - noanswer
again -
outcome - none
request 7 srd high - 1007006d7416
hears 0 1007006d7416 6805056800070aaabb7616 2
outcome - noanswer
outcome 6805056800070aaabb7616 none
request 126 sda high 78 680404687e0065785b16
hears 0 680404687e0065785b16 - 2
hears 0 100780790016 100007000716 2
outcome - noanswer
stations 126 1 7 0001020304050607
request 7 sdn high - 10077e46cb16
hears 1 10077e46cb16 - 1
outcome - none
request 7 sda high 81e95173837301be a2077e6581e95173837301becd16
hears 1 a2077e6581e95173837301becd16 e5 2
outcome e5 acked
outcome e5 none
stations 0 1 7 -
request 7 srd low ce1ad6eb5e6c24dd66 680c0c6807006cce1ad6eb5e6c24dd664d16
hears 1 680c0c6807006cce1ad6eb5e6c24dd664d16 100007192016 1
again 680c0c6807006cce1ad6eb5e6c24dd664d16
hears 1 680c0c6807006cce1ad6eb5e6c24dd664d16 100007192016 2
outcome - noanswer
outcome 100007192016 none
request 127 sdn low a69c 680505687f0044a69c0516
hears 1 680505687f0044a69c0516 - 3
outcome - none
stations 0 4 7 0001020304050607
request 7 srd high 756c 6805056807006d756c5516
hears 0 6805056807006d756c5516 a200070a00010203040506072d16 1
outcome a200070a00010203040506072d16 data:0001020304050607
request 127 sdn high - 107f0046c516
hears 0 107f0046c516 - 2
again -
outcome - none
stations 2 0 7 aabb
request 7 sdn high e1 68040468070246e13016
hears 0 68040468070246e13016 - 1
again -
outcome - none
request 0 srd high - 1000026d6f16
hears 0 1000026d6f16 - 1
outcome - noanswer
request 127 sdn high a7fc9977e3a1bd681b 680c0c687f0246a7fc9977e3a1bd681b3e16
hears 0 680c0c687f0246a7fc9977e3a1bd681b3e16 - 2
outcome 100205010816 none
outcome - none
request 7 srd low aa 6804046807026caa1f16
hears 0 6804046807026caa1f16 68050568020708aabb7616 3
outcome 680c0c68020706b99c70df78c7dc44788a16 none
outcome 680c0c68828734e20e0004d3c1f9aa339b16 none
outcome 68050568020708aabb7616 data:aabb
stations 126 0 7 0001020304050607
request 7 sda high - 10077e65ea16
hears 0 10077e65ea16 e5 1
outcome e5 acked
outcome 107f07098f16 none
outcome e5 none
request 0 srd high 36 68040468007e6d362116
hears 0 68040468007e6d362116 - 1
stations 2 2 7 aabb
request 7 sdn low - 100702444d16
outcome - none
request 7 srd high 5fe3 6805056807026d5fe3b816
hears 2 6805056807026d5fe3b816 6805056802072aaabb9816 1
again 6805056807026d5fe3b816
hears 2 6805056807026d5fe3b816 6805056802072aaabb9816 2
outcome 6805056802072aaabb9816 data:aabb
request 7 srd high 04906420befb4eda a207025d04906420befb4eda5f16
hears 2 a207025d04906420befb4eda5f16 6805056802072aaabb9816 3
outcome - noanswer
stations 17 0 7 aabb
request 7 sda low 4bc3 680505680711634bc38916
hears 0 680505680711634bc38916 e5 1
outcome 680b0b687f07369f5ecdb72e1fa8ccfe16 none
outcome - noanswer
outcome - none
request 7 sda high - 100711657d16
outcome 68050568070530d92e4316 none
outcome - noanswer
stations 0 0 7 -
request 7 srd high - 1007006d7416
hears 2 1007006d7416 100007293016 1
outcome - noanswer
request 7 sda low e0b4 68050568070063e0b4fe16
hears 2 68050568070063e0b4fe16 e5 2
hears 2 680c0c68078059b3c6c2c2e3e72e04d8b116 100007202716 2
outcome e5 acked
stations 0 2 7 -
request 127 sdn low 2c 680404687f00442cef16
hears 3 680404687f00442cef16 - 1
outcome - none
request 126 sdn high d1d7 680505687e0046d1d76c16
hears 3 680505687e0046d1d76c16 - 1
outcome a2807e1ddc31720725632386d216 none
outcome - none
stations 0 0 7 aabb
request 126 sda high 94 680404687e0065947716
hears 2 680404687e0065947716 - 0
outcome 680c0c6800fe0a653196cbe499b82a9bf916 data:653196cbe499b82a9b
outcome - none
request 7 sdn low 035b036107ac55659e 680c0c68070044035b036107ac55659e1816
hears 2 680c0c68070044035b036107ac55659e1816 - 1
outcome 68040468000708bfce16 none
outcome - none
request 7 sda low 714f 68050568070063714f2a16
hears 2 68050568070063714f2a16 e5 2
outcome e5 acked
outcome - none
outcome - none
stations 126 2 7 -
request 0 srd high - 10007e6deb16
hears 2 10007e6deb16 - 0
hears 2 68040468097e4fba9016 - 0
outcome - noanswer
request 7 srd high - 10077e6df216
hears 2 10077e6df216 107e0729ae16 1
outcome 107e0729ae16 acked
hears 2 a2877e6df2c835b627b639c3f016 107e0723a816 2
stations 2 2 7 aabb
request 0 srd low - 1000026c6e16
hears 2 1000026c6e16 - 0
outcome 1002003f4116 none
outcome e5 acked
outcome - none
request 127 sdn low fe 680404687f0244fec316
outcome - none
outcome - none
request 7 sdn high 23 68040468070246237216
hears 2 68040468070246237216 - 1
outcome 100287129b16 none
outcome - none
request 127 sdn low 67 680404687f0244672c16
hears 2 680404687f0244672c16 - 2
outcome - none
stations 17 2 7 -
request 7 srd low - 1007116c8416
hears 3 1007116c8416 101107395116 1
outcome - noanswer
request 7 sdn low - 100711445c16
hears 3 100711445c16 - 2
outcome - none
outcome - none
stations 126 0 7 01
request 7 sdn high 39 68040468077e46390416
hears 1 68040468077e46390416 - 1
request 7 sdn high 4e 68040468077e464e1916
hears 1 68040468077e464e1916 - 2
outcome 680c0c687e072fbe5c32d8224524f7c72116 none
stations 1 1 7 01
request 7 srd low fe7587b1b2657a21 a207016cfe7587b1b2657a21d116
hears 1 a207016cfe7587b1b2657a21d116 68040468010718012116 1
outcome 68040468010718012116 data:01
request 7 srd low 3782 6805056807015c37821d16
hears 1 6805056807015c37821d16 68040468010718012116 2
outcome 6805056801070fa4e9a416 none
again 6805056807015c37821d16
hears 1 6805056807015c37821d16 68040468010718012116 2
outcome 68040468010718012116 data:01
request 127 sdn low - 107f0144c416
hears 1 107f0144c416 - 3
hears 1 680c0c688709787e4e144a01710ecddc5b16 - 3
hears 1 1007814fd716 - 3
outcome - none
stations 126 1 7 aabb
request 127 sdn high - 107f7e464316
hears 3 107f7e464316 - 1
outcome - none
outcome - none
request 127 sdn low 1b9b1678bd4ddb88 a27f7e441b9b1678bd4ddb88f216
hears 3 a27f7e441b9b1678bd4ddb88f216 - 2
outcome 680c0c68fe0535fd1ab20a3f3dac8035e816 none
outcome - none
outcome - none
request 0 sdn high 2853fdfad9c55c5e80 680c0c68007e462853fdfad9c55c5e800e16
hears 3 680c0c68007e462853fdfad9c55c5e800e16 - 2
outcome 107e000d8b16 none
outcome - none
stations 0 0 7 aabb
request 7 sda low - 100700636a16
outcome - noanswer
request 7 sda low - 100700636a16
hears 1 100700636a16 e5 1
again -
outcome e5 acked
request 7 sda high - 100700555c16
hears 1 100700555c16 e5 2
hears 1 680404680700449de816 - 3
outcome - noanswer
request 7 srd low 4afd 6805056807006c4afdba16
hears 1 6805056807006c4afdba16 68050568000718aabb8416 4
again -
stations 2 5 7 01
request 7 sda high - 100702656e16
hears 3 100702656e16 e5 1
hears 3 10098250db16 - 1
outcome e5 acked
request 7 srd high - 1007025d6616
again 1007025d6616
hears 3 1007025d6616 6804046802073a014416 2
outcome 6804046802073a014416 data:01
stations 126 1 7 -
request 127 sdn low - 107f7e444116
hears 1 107f7e444116 - 1
outcome - none
request 0 srd high c31c416eb45d763a a2007e6dc31c416eb45d763a3a16
hears 1 680c0c6807fe58f9f52f146a01858bc6cf16 - 1
outcome 107e80464416 none
outcome - noanswer
request 0 sda high - 10007e65e316
hears 1 10007e65e316 - 1
outcome - noanswer
stations 1 1 7 aabb
request 7 srd low - 1007016c7416
hears 0 1007016c7416 68050568010708aabb7516 1
outcome 68050568010708aabb7516 data:aabb
request 7 sdn high 8220e5afa25f3bedbd 680c0c680701468220e5afa25f3bedbd6a16
hears 0 a27f015005d7d5ba5cba9aa28d16 - 1
outcome - none
request 0 srd low - 1000016c6d16
hears 0 1000016c6d16 - 1
outcome - noanswer
outcome 68040468010016fd1416 none
request 7 sdn low 2484d97f36fb55d5a0 680c0c680701442484d97f36fb55d5a04716
hears 0 680c0c680701442484d97f36fb55d5a04716 - 2
outcome - none
stations 126 1 7 aabb
request 7 sdn high 92226e1d86d8b622f0 680c0c68077e4692226e1d86d8b622f03016
hears 0 680c0c68077e4692226e1d86d8b622f03016 - 1
outcome 107e072fb416 none
outcome - none
request 7 sda high b051 68050568077e65b051eb16
hears 0 68050568077e65b051eb16 e5 2
again 68050568077e65b051eb16
hears 0 68050568077e65b051eb16 e5 3
outcome - noanswer
request 7 sdn low - 10077e44c916
outcome 107e051da016 none
outcome - none
request 127 sdn high - 107f7e464316
hears 0 107f7e464316 - 4
outcome 107e0535b816 none
outcome 680404687f7e0b0b1316 none
outcome - none
stations 17 0 7 0001020304050607
request 7 sda low - 100711637b16
outcome - noanswer
outcome - none
request 7 srd high a025 6805056807116da0254a16
outcome 6805056811873705542816 none
outcome 10118730c816 acked
outcome - none
request 7 srd high 743fe011fcc236a8 a207115d743fe011fcc236a8b516
hears 3 a207115d743fe011fcc236a8b516 a211073a00010203040506076e16 1
outcome 68040468070723abdc16 none
outcome 1011070e2616 none
outcome - noanswer
stations 0 0 7 -
request 7 srd high - 1007006d7416
hears 2 1007006d7416 100007293016 1
outcome 100007293016 acked
request 126 sdn high - 107e0046c416
hears 2 107e0046c416 - 1
outcome - none
request 7 srd low 077201f53ff7f15bbc 680c0c6807005c077201f53ff7f15bbc1016
hears 2 680c0c6807005c077201f53ff7f15bbc1016 100007293016 2
outcome 100007293016 acked
outcome 10008738bf16 none
outcome - none
request 7 sda high e0 68040468070075e05c16
hears 2 68040468070075e05c16 e5 3
outcome 68040468000770dd5416 none
outcome e5 acked
stations 0 0 7 -
request 126 sdn high fdc90e68a0507a26ec 680c0c687e0046fdc90e68a0507a26ec7c16
hears 2 680c0c687e0046fdc90e68a0507a26ec7c16 - 0
outcome 10007e2dab16 none
outcome 68050568007e32ab237e16 none
outcome - none
request 7 srd high - 1007006d7416
hears 2 1007006d7416 100007293016 1
outcome 100007030a16 noresource
outcome 107f0022a116 none
request 126 srd low - 107e006cea16
hears 2 107e006cea16 - 1
outcome 680c0c68007e235a33048b0121d2175d2516 noresource
hears 2 100700434a16 e5 2
outcome - none
stations 0 0 7 -
request 7 srd high d699edb514e4433d a207006dd699edb514e4433dfd16
hears 3 a207006dd699edb514e4433dfd16 100007394016 1
outcome 1000072e3516 none
request 126 sdn high 318832ff1f252f31 a27e0046318832ff1f252f315216
hears 3 a27e0046318832ff1f252f315216 - 1
outcome 680404687f7e1acde416 none
outcome 10007e2caa16 none
stations 17 0 7 0001020304050607
request 7 srd low - 1007116c8416
hears 0 1007116c8416 a211070800010203040506073c16 1
again -
outcome a211070800010203040506073c16 data:0001020304050607
request 127 sdn low 4abf529ef6cb36a818 680c0c687f11444abf529ef6cb36a8188416
hears 0 680c0c687f11444abf529ef6cb36a8188416 - 2
outcome 107f0529ad16 none
request 0 sda low 7759d8fd4ed9dd69 a20011637759d8fd4ed9dd698616
hears 0 a20011637759d8fd4ed9dd698616 - 2
outcome - noanswer
request 127 sdn high 78 680404687f1146784e16
hears 0 680404687f1146784e16 - 3
outcome 680404681105289cda16 none
outcome 101105001616 none
outcome - none
stations 2 3 7 -
request 127 sdn low - 107f0244c516
hears 0 107f0244c516 - 1
outcome - none
request 7 srd low - 1007026c7516
hears 0 100902586316 - 1
outcome - noanswer
request 127 sdn high - 107f0246c716
hears 0 107f0246c716 - 2
outcome 680b0b68020269e0d962e9d03883aaa616 none
outcome - none
request 7 srd high - 1007026d7616
hears 0 1007026d7616 100207091216 3
outcome 100207091216 acked
stations 17 2 7 -
request 127 sdn low - 107f1144d416
hears 3 107f1144d416 - 1
outcome 101105344a16 none
outcome - none
request 127 sdn high - 107f1146d616
hears 3 107f1146d616 - 2
outcome 101105162c16 none
outcome 680505681105136843d416 none
outcome - none
stations 0 0 7 -
request 126 sdn low - 107e0044c216
hears 1 107e0044c216 - 0
hears 1 10870066ed16 - 1
outcome - none
request 127 sdn high 62 680404687f0046622716
outcome a20005679a8446c4cf4c4e403d16 none
outcome - none
stations 126 4 7 -
request 7 sdn low - 10077e44c916
hears 3 10077e44c916 - 1
again -
outcome - none
request 7 sda low f0 68040468077e63f0d816
hears 3 68040468077e63f0d816 e5 2
again 68040468077e63f0d816
hears 3 68040468077e63f0d816 e5 3
outcome - noanswer
stations 126 1 7 e2
request 127 sdn high 6fb006d064de1e2e a27f7e466fb006d064de1e2ec616
hears 2 a27f7e466fb006d064de1e2ec616 - 1
outcome dc7e7e none
outcome - none
outcome - none
request 7 sda high 98 68040468077e65988216
hears 2 68040468077e65988216 e5 2
outcome - noanswer
again -
outcome e5 none
request 7 srd low aeefc2423fe80eac a2077e6caeefc2423fe80eac7316
hears 2 a2077e6caeefc2423fe80eac7316 680404687e0728e28f16 3
outcome - noanswer
outcome 680404687e0728e28f16 none
request 127 sdn low 1493f25d50d59c1f a27f7e441493f25d50d59c1f1716
hears 2 a27f7e441493f25d50d59c1f1716 - 4
outcome e5 none
stations 0 2 7 -
request 7 srd low 92c4 6805056807006c92c4c916
hears 2 6805056807006c92c4c916 100007293016 1
request 126 sda high - 107e0065e316
hears 2 107e0065e316 - 1
outcome 680c0c68007e2c97802744f241220253d616 data:97802744f241220253
again -
outcome - none
stations 1 3 7 aabb
request 127 sdn low 98 680404687f0144985c16
outcome 100105292f16 none
outcome 680b0b68010510764c9517f8de98605216 none
outcome - none
request 0 srd low 5b 6804046800016c5bc816
stations 1 1 7 0001020304050607
request 7 srd high - 1007016d7516
outcome 100107192116 acked
outcome - none
request 7 sda low 0f 680404680701530f6a16
hears 2 680404680701530f6a16 e5 1
outcome - noanswer
outcome e5 none
stations 2 2 7 -
request 0 srd low - 1000026c6e16
hears 0 1000026c6e16 - 0
outcome - noanswer
outcome - none
request 7 sda high 76 6804046807026576e416
outcome - noanswer
stations 2 4 7 abd1dc1e4d0f1348
request 0 srd low 70 6804046800026c70de16
hears 0 6804046800026c70de16 - 0
again 6804046800026c70de16
hears 0 6804046800026c70de16 - 0
outcome - noanswer
request 0 sdn high eb 68040468000246eb3316
hears 0 68040468000246eb3316 - 0
outcome - none
request 7 srd high f2 6804046807026df26816
hears 0 6804046807026df26816 a202070aabd1dc1e4d0f13484016 1
outcome 100287099216 acked
hears 0 68040468870251290316 - 1
outcome a202070aabd1dc1e4d0f13484016 none
";
